// Goals and results: what each says in the parsed pack.
ghost use Rattle.std.specs.Prelude.{◌<◌, length, get_or};
ghost use Rattle.definition.specs.Verdict.{no_goal, no_result};
ghost use Rattle.pack_tables.specs.Catalog.{records_of};
ghost use Rattle.pack_read.specs.Says.{Readable, OfPack, ResultOf};
ghost use Rattle.pack_read.specs.Held.{Held};
ghost use Rattle.pack_read.specs.Goals.{StepOf};

use crate::body::body_word;
use crate::name::goal_name;
use crate::step::step_judgment;
use base::id::Ground;
use pack_tables::catalog::Catalog;

// The judgment of goal `i`, a node.
pub fn goal_judgment(pack: &[u8], work: &[u32], c: Catalog, i: usize) -> Ground
    requires { Readable pack.now work.now c × (i < length (records_of work.now c 5)) }
    ensures { OfPack pack.now work.now c (λ P. (get_or P.goals i no_goal).judgment) result.0 }
{
    Ground(body_word(pack, work, c, Catalog::GOALS, i, 0))
}

// The result that has the name of goal `g`, or none.
pub fn goal_result(pack: &[u8], work: &[u32], c: Catalog, g: usize) -> Option<usize>
    requires { Readable pack.now work.now c × (g < length (records_of work.now c 5)) }
    ensures { ResultOf pack.now work.now c g result }
{
    let name = goal_name(pack, work, c, g);
    c.find(pack, work, Catalog::RESULTS, name)
}

// The step of result `i`.
pub fn result_step(pack: &[u8], work: &[u32], c: Catalog, i: usize) -> u32
    requires { Readable pack.now work.now c × (i < length (records_of work.now c 6)) }
    ensures { OfPack pack.now work.now c (λ P. (get_or P.results i no_result).step) result }
{
    body_word(pack, work, c, Catalog::RESULTS, i, 0)
}

// The step of the result that has the name of goal `g`, if it has the goal's judgment; none where it has another, or where there is none.
pub fn goal_step(pack: &[u8], work: &[u32], c: Catalog, g: usize) -> Option<usize>
    requires { Held pack.now work.now c × (g < length (records_of work.now c 5)) }
    ensures { StepOf pack.now work.now c g result }
{
    let i = goal_result(pack, work, c, g)?;
    let s = result_step(pack, work, c, i) as usize;
    if step_judgment(pack, work, c, s).0 == goal_judgment(pack, work, c, g).0 {
        Some(s)
    } else {
        None
    }
}
