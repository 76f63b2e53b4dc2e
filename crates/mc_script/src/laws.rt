// What holds of the definitions, whatever is read or written.
ghost use Rattle.std.specs.Prelude.{◌≡◌, ◌↔◌, ◌++◌, ℕ, List, None, Some};
ghost use Rattle.std.specs.List.{AllByRecursion, flat_map};
ghost use Rattle.mc_script.specs.Grammar.{IsLineOf, IsSilent, IsWritable, command_text};
ghost use Rattle.mc_script.specs.Line.{line_of};
ghost use Rattle.mc_script.specs.ReplyText.{IsTyped, reply_text};
ghost use Rattle.mc_script.specs.declared.command.Command.{Command};
ghost use Rattle.mc_script.specs.declared.reply.Reply.{Reply};

use mc_cidtext::{one_text, read_again};

/// A line is read as a command exactly where it is a line of it: the command's name and its words, as the list of
/// forms has them (`form`), with one space between two of them. What a line has free is the case of hexadecimal digits,
/// and the zeros before a number. A line has no reply exactly where it is UTF-8, and empty or a comment. Every other
/// line is bad.
pub fn lines_are_commands()
    ensures read { (command : Command) (line : List ℕ) → IsLineOf command line → line_of line ≡ Some (Some command) }
    ensures found { (command : Command) (line : List ℕ) → line_of line ≡ Some (Some command) → IsLineOf command line }
    ensures silent { (line : List ℕ) → line_of line ≡ Some None ↔ IsSilent line }
{
    one_text();
}

/// The one line that is written for a command is read as it, where the command's words can be written: the replica is
/// one of `a` to `h`, a key and a prefix are UTF-8 of at least one byte and without a space, a value is bytes, a
/// number is below 2^64, an identifier has 32 bytes, the two replicas of a link differ, and a number with a greatest
/// one is from 1 to it: that of a commit to 1,000,000, those of workers and writers to 16, a budget to 1,048,576, and
/// that of a writer's writes to 10,000.
pub fn commands_are_read_again()
    ensures { (command : Command) → IsWritable command → line_of (command_text command) ≡ Some (Some command) }
{
    read_again();
}

/// A text begins with the text of one reply at most: two replies of one text are equal, also where something follows,
/// and so what is written for many replies tells each of them. Their values are those that their types have.
pub fn replies_are_told_apart()
    ensures first { (reply other : Reply) (after behind : List ℕ) → IsTyped reply → IsTyped other →
        reply_text reply ++ after ≡ reply_text other ++ behind → (reply ≡ other) × (after ≡ behind) }
    ensures all { (replies others : List Reply) → AllByRecursion IsTyped replies → AllByRecursion IsTyped others →
        flat_map reply_text replies ≡ flat_map reply_text others → replies ≡ others }
{
    read_again();
}
