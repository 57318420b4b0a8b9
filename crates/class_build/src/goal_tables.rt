// Where the goals' instance test has its tables when all classes are made.
ghost use Rattle.std.specs.Prelude.{◌≡◌, length};
ghost use Rattle.class_build.specs.GoalTables.{Spacious, test_tables};

use base::limit::Limit;
use class_premises::layout::Layout;
use memo::memo::Memo;
use store::nodes::Store;
use term_instance::tables::Instance;
use term_lift::lift::Lifted;

// Behind the store's index: pairs for its words, a memo of its nodes and one of its variables.
pub fn instance_tables(cells: &[u32], l: Layout, st: Store) -> Instance
    requires { Spacious cells.now l st }
    ensures { result ≡ test_tables (length cells.now) l st }
{
    let pairs = l.copied;
    let seen = pairs + 2 * st.used;
    let values = seen + Memo::ENTRY * st.len;
    Instance {
        index: l.lifted + Lifted::NODE * l.nodes,
        pairs,
        seen,
        values,
        end: values + Memo::ENTRY * (cells.len() + Limit::ARITY),
    }
}
