// What figures count of all classes.
ghost use Rattle.std.specs.Prelude.{◌≡◌};
ghost use Rattle.class_all.specs.Totals.{Addable, summed};

use class_premises::building::Counted;

// One class more.
pub fn add_counted(t: Counted, f: Counted) -> Counted
    requires { Addable t f }
    ensures { result ≡ summed t f }
{
    Counted {
        vars: t.vars + f.vars,
        flex: t.flex + f.flex,
        fixed: t.fixed + f.fixed,
        entries: t.entries + f.entries,
        renamings: t.renamings + f.renamings,
    }
}
