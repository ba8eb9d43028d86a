//! The first words of commands.

ghost use Rattle.std.specs.Prelude.{◌≡◌, map};
ghost use Rattle.std.specs.Map.{lookup};
ghost use Rattle.std.specs.Str.{bytes_eq};
ghost use Rattle.rt_command.specs.Verbs.{verb_of};
ghost use Rattle.rt_command.specs.Working.Rows.{seen_row};

/// The first word of a command.
#[derive(Clone, Copy, PartialEq, Eq)]
pub(crate) enum Verb {
    Step,
    Back,
    Continue,
    Where,
    Regs,
    Server,
    Mem,
    List,
    Out,
    Trace,
    Break,
    Delete,
    Stop,
    Unstop,
    Quit,
}

/// All first words.
static VERBS: [(&[u8], Verb); 15] = [
    (b"step", Verb::Step),
    (b"back", Verb::Back),
    (b"continue", Verb::Continue),
    (b"where", Verb::Where),
    (b"regs", Verb::Regs),
    (b"server", Verb::Server),
    (b"mem", Verb::Mem),
    (b"list", Verb::List),
    (b"out", Verb::Out),
    (b"trace", Verb::Trace),
    (b"break", Verb::Break),
    (b"delete", Verb::Delete),
    (b"stop", Verb::Stop),
    (b"unstop", Verb::Unstop),
    (b"quit", Verb::Quit),
];

/// The verb that stands beside a name in a table.
fn value_of(table: &[(&[u8], Verb)], name: &[u8]) -> Option<Verb>
    ensures { result ≡ lookup (bytes_eq name.now) (map seen_row table.now) }
{
    for (row_name, verb) in table {
        if name == *row_name {
            return Some(*verb);
        }
    }
    None
}

/// The verb of this name.
#[tactic(auto, unfolding(crate::specs::Verbs::verbs))]
pub(crate) fn verb_of(name: &[u8]) -> Option<Verb>
    ensures { result ≡ verb_of name.now }
{
    value_of(&VERBS, name)
}
