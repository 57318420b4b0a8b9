// Where class building has its words in work.
ghost use Rattle.std.specs.Prelude.{◌≡◌};
ghost use Rattle.class_premises.specs.Layout.{place_of};
ghost use Rattle.class_premises.specs.Standing.{lifted_of};

use term_instantiate::terms::Place;
use term_lift::lift::Lifted;

// A word for each class, its row's place in the class buffer; behind them lifting's words and the store's index, up to `copied`; what
// pattern nodes were copied to; a copy's stack; a word for each variable of the class that is copied; the graph's table, the last of
// which are the variables of all copies.
#[derive(Clone, Copy)]
pub struct Layout {
    pub rows: usize,
    pub lifted: usize,
    pub nodes: usize,
    pub copied: usize,
    pub walk: usize,
    pub variables: usize,
    pub graph: usize,
    pub end: usize,
}

impl Layout {
    // Where lifting has its words.
    pub fn lifting(self) -> Lifted
        ensures { result ≡ lifted_of self }
    {
        Lifted {
            at: self.lifted,
            nodes: self.nodes,
            end: self.copied,
        }
    }

    // Where the terms of a rule are put, which has `vars` variables.
    pub fn place(self, rule: usize, vars: usize) -> Place
        ensures { result ≡ place_of self rule vars }
    {
        Place {
            rule,
            vars,
            at: self.graph,
            end: self.end,
        }
    }
}
