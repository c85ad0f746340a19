//! What a program asks of its machine.

/// A machine: files, standard output, and standard error. It is all that a program writes to.
pub trait Machine {
    ghost use Rattle.std.specs.Prelude.{◌≡◌, ◌≢◌, IfSome, IfNone, true, false, string_bytes};
    ghost use Rattle.rpki_cli.specs.Call.{complaining, looking, opening, placing, taking, telling};
    ghost use Rattle.rpki_cli.specs.World.{World, IsAdded, IsFailed, IsOpened, IsPlaced, IsPrinted, IsStaged, IsTaken};
    ghost use Rattle.rpki_cli.specs.World.{IsTold, IsUnadded, IsUnprinted, IsUnstaged, IsUntold, line};

    // Whether its calls do what is said of them. Of a host nothing is.
    ghost knows: { Self → Type 0 };

    // What it has.
    ghost world: { Self → World };

    /// Whether the file of this name can be written, as far as that can be seen before.
    fn is_writable(&mut self, name: &str) -> bool
        ensures known { knows self.old → knows self.new }
        ensures yes { knows self.old → result ≡ true → world self.new ≡ world self.old }
        ensures no { knows self.old → result ≡ false
            → IsFailed (world self.old) (world self.new) (looking name.now) };

    /// Whether both names are those of one file.
    fn are_one(&self, first: &str, second: &str) -> bool
        ensures apart { result ≡ false → first.now ≢ second.now }
        ensures one { knows self.now → result ≡ true → first.now ≡ second.now };

    /// Makes a file with this text, whole, beside the one of this name, and returns its name, which is not that of the
    /// other either. None if it can't; then there is none, unless a part of it can't be taken away.
    fn stage(&mut self, name: &str, other: &str, text: &[u8]) -> Option<String>
        ensures known { knows self.old → knows self.new }
        ensures some { knows self.old → IfSome result (λ beside. IsStaged (world self.old) (world self.new) name.now
            other.now (string_bytes beside) text.now) }
        ensures none { knows self.old
            → IfNone result (IsUnstaged (world self.old) (world self.new) name.now other.now) };

    /// Lets the file beside, which has this text, take the place of the one of this name. Returns whether it did.
    fn place(&mut self, beside: &str, name: &str, text: &[u8]) -> bool
        ensures known { knows self.old → knows self.new }
        ensures yes { knows self.old → result ≡ true
            → IsPlaced (world self.old) (world self.new) beside.now name.now }
        ensures no { knows self.old → result ≡ false
            → IsFailed (world self.old) (world self.new) (placing name.now) };

    /// Takes the file beside that of this name away. Returns whether it did.
    fn take_away(&mut self, beside: &str, name: &str) -> bool
        ensures known { knows self.old → knows self.new }
        ensures yes { knows self.old → result ≡ true → IsTaken (world self.old) (world self.new) beside.now }
        ensures no { knows self.old → result ≡ false
            → IsFailed (world self.old) (world self.new) (taking beside.now) };

    /// Opens the file of this name to add to it; it is made where there is none. Returns whether it did.
    fn open(&mut self, name: &str) -> bool
        ensures known { knows self.old → knows self.new }
        ensures yes { knows self.old → result ≡ true → IsOpened (world self.old) (world self.new) name.now }
        ensures no { knows self.old → result ≡ false
            → IsFailed (world self.old) (world self.new) (opening name.now) };

    /// Adds the text to the file of this name. Returns whether all of it was added.
    fn add(&mut self, name: &str, text: &[u8]) -> bool
        ensures known { knows self.old → knows self.new }
        ensures yes { knows self.old → result ≡ true
            → IsAdded (world self.old) (world self.new) name.now text.now }
        ensures no { knows self.old → result ≡ false
            → IsUnadded (world self.old) (world self.new) name.now text.now };

    /// Writes the text to standard output. Returns whether all of it was written.
    fn print(&mut self, text: &[u8]) -> bool
        ensures known { knows self.old → knows self.new }
        ensures yes { knows self.old → result ≡ true → IsPrinted (world self.old) (world self.new) text.now }
        ensures no { knows self.old → result ≡ false → IsUnprinted (world self.old) (world self.new) text.now };

    /// Writes the text to standard error. Returns whether all of it was written.
    fn tell(&mut self, text: &[u8]) -> bool
        ensures known { knows self.old → knows self.new }
        ensures yes { knows self.old → result ≡ true → IsTold (world self.old) (world self.new) text.now }
        ensures no { knows self.old → result ≡ false → IsUntold (world self.old) (world self.new) text.now
            (telling text.now) };

    /// Writes a line to standard error: the program, a name, and what is wrong with it. Allocates nothing that could
    /// fail. Returns whether all of it was written.
    fn complain(&mut self, program: &str, name: &str, why: &str) -> bool
        ensures known { knows self.old → knows self.new }
        ensures yes { knows self.old → result ≡ true
            → IsTold (world self.old) (world self.new) (line program.now name.now why.now) }
        ensures no { knows self.old → result ≡ false
            → IsUntold (world self.old) (world self.new) (line program.now name.now why.now) (complaining name.now) };
}
