// The goals in ascending order, each tested and shown.
ghost use Rattle.text_goals.specs.Showable.{Showable};
ghost use Rattle.text_goals.specs.EachShown.{ShowsEach};
ghost use Rattle.text_goals.specs.AllShown.{Starting, ShowsAll};

use crate::goal::{Budgets, show_goal};
use class_build::goal::Testing;
use class_premises::building::Building;
use definition::Refusal;
use memo::part::begin;
use pack_tables::catalog::Catalog;
use term_instance::tables::Instance;

// All goals shown, and where the text ends: the first goal that is not met is refused. A text that has no room is gone through all the
// same: a goal's refusal comes ahead of it.
pub fn show_each(
    pack: &[u8],
    work: &mut [u32],
    class: &[u32],
    words: &[u32],
    text: &mut [u8],
    s: Building,
    t: Testing,
    b: Budgets,
) -> Result<usize, Refusal>
    requires { Showable pack.now work.old class.now words.now s t.tables t.seen t.values }
    ensures { ShowsEach pack.now work.old work.new class.now words.now text.old text.new s t.tables b result }
{
    let goals = s.catalog.count(work, Catalog::GOALS);
    let tables = t.tables;
    let mut seen = t.seen;
    let mut values = t.values;
    let mut at: usize = 0;
    for g in 0..goals {
        let now = Testing {
            tables,
            seen,
            values,
        };
        (seen, values, at) = show_goal(pack, work, class, words, text, s, now, b, at, g)?;
    }
    Ok(at)
}

// The instance test's tables are begun, then each goal is shown, and where the text ends; the words of the tables may hold anything before.
pub fn show_goals(
    pack: &[u8],
    work: &mut [u32],
    class: &[u32],
    words: &[u32],
    text: &mut [u8],
    s: Building,
    t: Instance,
    b: Budgets,
) -> Result<usize, Refusal>
    requires { Starting pack.now work.old class.now words.now s t }
    ensures { ShowsAll pack.now work.old work.new class.now words.now text.old text.new s t b result }
{
    let seen = begin(work, t.seen, t.values);
    let values = begin(work, t.values, t.end);
    let at = Testing {
        tables: t,
        seen,
        values,
    };
    show_each(pack, work, class, words, text, s, at, b)
}
