// Where class building has its words in work, one place behind the other.
ghost use Rattle.std.specs.Prelude.{◌≡◌, ◌<◌};
ghost use Rattle.class_keys.specs.ClassWords.{end_of};
ghost use Rattle.class_build.specs.Places.{keying_of, Roomy, Places};

use base::limit::Limit;
use class_keys::classes::Keying;
use class_premises::layout::Layout;
use graph::places::copies_end;
use memo::memo::Memo;
use pack_tables::catalog::Catalog;
use store::nodes::Store;
use term_lift::lift::Lifted;

// The keys stand behind the tables and their marks.
pub fn keying(c: Catalog) -> Keying
    requires { end_of (keying_of c) < 18446744073709551616 }
    ensures { result ≡ keying_of c }
{
    let marks = c.at + Catalog::TABLES * (Catalog::RECORD * c.cap + Catalog::MORE);
    Keying {
        at: marks + c.cap,
        cap: c.cap,
    }
}

// What stands behind the keys, for a pack of so many ground nodes.
pub fn layout(work: &[u32], words: &[u32], cells: &[u32], k: Keying, nodes: usize) -> Layout
    requires { Roomy work.now words.now cells.now k nodes }
    ensures { Places work.now words.now cells.now k nodes result }
{
    let room = words.len() / 2;
    let n = cells.len();
    let rows = k.at + (Keying::END * k.cap + 1);
    let lifted = rows + k.cap;
    let index = lifted + Lifted::NODE * nodes;
    let copied = index + (Store::INDEX * room + 1);
    let walk = copied + Memo::ENTRY * room;
    let variables = walk + 2 * room;
    let graph = variables + (n + Limit::ARITY);
    Layout {
        rows,
        lifted,
        nodes,
        copied,
        walk,
        variables,
        graph,
        end: graph + copies_end(n),
    }
}
