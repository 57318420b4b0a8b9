// Names of rules and goals put behind a text in a lent buffer; a number that is no rule's or goal's has none.
ghost use Rattle.definition.specs.Pack.{rule_of};
ghost use Rattle.emission.specs.Render.{goal_name};
ghost use Rattle.pack_read.specs.Says.{Readable};
ghost use Rattle.text_write.specs.Source.{OfRead};
ghost use Rattle.text_write.specs.Written.{Adds};

use pack_read::name::{goal_name, rule_name};
use pack_tables::catalog::Catalog;
use text_write::put::put_bytes;

// The name of rule `i`.
pub fn put_rule(pack: &[u8], work: &[u32], text: &mut [u8], c: Catalog, at: usize, i: u32) -> usize
    requires { Readable pack.now work.now c }
    ensures { OfRead pack.now work.now c (λ P. Adds text.old text.new at (rule_of P i).name result) }
{
    let rule = i as usize;
    if c.count(work, Catalog::RULES) <= rule {
        return at;
    }
    put_bytes(text, at, rule_name(pack, work, c, rule))
}

// The name of goal `g`.
pub fn put_goal(pack: &[u8], work: &[u32], text: &mut [u8], c: Catalog, at: usize, g: u32) -> usize
    requires { Readable pack.now work.now c }
    ensures { OfRead pack.now work.now c (λ P. Adds text.old text.new at (goal_name P g) result) }
{
    let goal = g as usize;
    if c.count(work, Catalog::GOALS) <= goal {
        return at;
    }
    put_bytes(text, at, goal_name(pack, work, c, goal))
}
