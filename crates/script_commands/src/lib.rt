// The commands of a script of numbers: its numbers, what each command asks for, and how many numbers it has.
#![tactic(auto)]

ghost use Rattle.std.specs.Prelude.{◌≡◌, get_or};
ghost use Rattle.script_commands.specs.Commands.{behind, action_number, Named, size_of};

// What a command asks for: a search, a next with the copy last received, or a next with a list of its own.
#[derive(Clone, Copy)]
pub enum Action {
    Search,
    NextOfCopy,
    NextOfList,
}

impl Action {
    // The action that a number names, if it names one.
    pub fn of(number: u16) -> Option<Action>
        ensures { Named number result }
    {
        match number {
            0 => Some(Action::Search),
            1 => Some(Action::NextOfCopy),
            2 => Some(Action::NextOfList),
            _ => None,
        }
    }

    // How many numbers stand after the first two of a command.
    fn numbers_behind(self, third: u16) -> usize
        ensures { result ≡ behind (action_number self) third }
    {
        match self {
            Action::Search => 2,
            Action::NextOfCopy => 0,
            Action::NextOfList => third as usize + 1,
        }
    }
}

// The number at a place of a script, 0 past its end.
pub fn number_at(script: &[u16], place: usize) -> u16
    ensures { result ≡ get_or script.now place 0 }
{
    script.get(place).copied().unwrap_or(0)
}

// How many numbers the first command has, unless the script is over.
pub fn command_size(script: &[u16]) -> Option<usize>
    ensures { result ≡ size_of script.now }
{
    let action = Action::of(number_at(script, 0))?;
    let third = number_at(script, 2);
    let size = 2 + action.numbers_behind(third);
    (size <= script.len()).then_some(size)
}
