// One goal, tested and shown.
ghost use Rattle.std.specs.Prelude.{◌≡◌, ◌<◌, length};
ghost use Rattle.pack_tables.specs.Catalog.{records_of};
ghost use Rattle.text_goals.specs.Showable.{form_of, Showable};
ghost use Rattle.text_goals.specs.OneShown.{ShowsOne};

use crate::form::Form;
use crate::lines::write_goal;
use class_build::goal::{Testing, test_goal};
use class_premises::building::Building;
use definition::Refusal;
use memo::memo::Memo;
use term_instance::tables::Instance;
use text_write::source::Source;

// The budget of a goal's general form, and that of each value.
#[derive(Clone, Copy)]
pub struct Budgets {
    pub form: u64,
    pub value: u64,
}

// Where the lines of a goal are read whose class has its row at `row`.
fn form(s: Building, t: Instance, values: Memo, row: usize, budget: u64) -> Form
    ensures { result ≡ form_of s t values row budget }
{
    let patterns = Source {
        catalog: s.catalog,
        index: t.index,
        end: t.pairs,
        store: s.store,
        is_ground: false,
    };
    Form {
        patterns,
        values: t.values,
        stack: t.end,
        memo: values,
        row,
        budget,
    }
}

// Goal `g` is tested, and its lines are put behind a text that ends at `at`: the memos as they are then, and where the text ends. It is
// refused if it has no result, or one with another judgment, or if the judgment of the result's step is no instance of its class's
// conclusion.
pub fn show_goal(
    pack: &[u8],
    work: &mut [u32],
    class: &[u32],
    words: &[u32],
    text: &mut [u8],
    s: Building,
    t: Testing,
    b: Budgets,
    at: usize,
    g: usize,
) -> Result<(Memo, Memo, usize), Refusal>
    requires { Showable pack.now work.old class.now words.now s t.tables t.seen t.values × (g < length (records_of work.old s.catalog 5)) }
    ensures { ShowsOne pack.now work.old work.new class.now words.now text.old text.new s t.tables b at g result }
{
    let (seen, values, row) = test_goal(
        pack, work, class, words, s.catalog, s.keying, s.layout, s.store, t, g,
    )?;
    let f = form(s, t.tables, values, row, b.value);
    let end = write_goal(pack, work, class, words, text, f, b.form, at, g);
    Ok((seen, values, end))
}
