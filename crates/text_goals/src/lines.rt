// "for each goal a line of its name, a blank and the general form", then its variables' lines.
ghost use Rattle.std.specs.Prelude.{◌<◌, length};
ghost use Rattle.pack_tables.specs.Catalog.{records_of};
ghost use Rattle.text_goals.specs.Form.{Lined};
ghost use Rattle.text_goals.specs.Goals.{WritesGoal};

use crate::form::Form;
use crate::values::write_variables;
use class_premises::row::row_conclusion;
use pack_read::name::goal_name;
use text_write::put::{put_byte, put_bytes};
use text_write::term::write_term;

// The lines of goal `g`, the general form with a budget.
pub fn write_goal(
    pack: &[u8],
    work: &mut [u32],
    class: &[u32],
    words: &[u32],
    text: &mut [u8],
    f: Form,
    budget: u64,
    at: usize,
    g: usize,
) -> usize
    requires { Lined pack.now work.old class.now words.now f × (g < length (records_of work.old f.patterns.catalog 5)) }
    ensures { WritesGoal pack.now work.old work.new class.now words.now text.old text.new f budget at g result }
{
    let name = put_bytes(text, at, goal_name(pack, work, f.patterns.catalog, g));
    let blank = put_byte(text, name, b' ');
    let p = row_conclusion(class, f.row);
    let form = write_term(
        pack, work, words, text, f.patterns, f.stack, blank, budget, p.0,
    );
    let line = put_byte(text, form, b'\n');
    write_variables(pack, work, class, words, text, f, line)
}
