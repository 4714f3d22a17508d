// The two buffers that a path is written to, and commands written to them one after another.
#![tactic(auto)]

ghost use Rattle.std.specs.Prelude.{[], ◌∷◌};
ghost use Rattle.sheet.specs.Sheets.{HasRoom, Wrote};

use command::{PathCommand, Size};

// The buffer of the codes and that of the numbers, and how much of both is filled.
#[derive(Drop)]
pub struct Sheet<'a> {
    pub codes: &'a mut [u8],
    pub numbers: &'a mut [f32],
    pub at: Size,
}

impl<'a> Sheet<'a> {
    // Writes a command.
    pub fn put(&mut self, command: PathCommand)
        requires { HasRoom (command ∷ []) self.old }
        ensures { Wrote (command ∷ []) self.old self.new }
    {
        self.codes[self.at.codes] = command.code();
        self.at = Size {
            codes: self.at.codes + 1,
            numbers: command.put_numbers(self.numbers, self.at.numbers),
        };
    }

    // Writes commands one after another.
    pub fn put_all(&mut self, commands: &[PathCommand])
        requires { HasRoom commands.now self.old }
        ensures { Wrote commands.now self.old self.new }
    {
        for command in commands {
            self.put(*command);
        }
    }
}
