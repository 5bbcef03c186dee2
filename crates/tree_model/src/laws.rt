//! What the definitions of commands and of a run's output mean, for all texts: each function's contract is the law,
//! and its body is empty.

ghost use Rattle.std.specs.Prelude.{◌≡◌, ◌≢◌, ℕ, ◌+◌, ◌↔◌, List, [], ◌++◌, Some};
ghost use Rattle.std.specs.List.{All, count_by};
ghost use Rattle.tree_model.specs.declared.command.Command.{Command};
ghost use Rattle.tree_model.specs.declared.command.Target.{Target};
ghost use Rattle.tree_model.specs.Commands.{IsCommandText, IsNumberText, IsTargetText};
ghost use Rattle.tree_model.specs.CommandReading.{number_of, target_of};
ghost use Rattle.tree_model.specs.Transcripts.{Reply, reply_text, transcript, IsPrintable, is_committed};
ghost use Rattle.tree_model.specs.Transcripts.{IsAcknowledged};

/// A line stands for one command.
pub fn lines_stand_for_one_command()
    ensures { (line : List ℕ) (command other : Command) → IsCommandText line command → IsCommandText line other
        → command ≡ other }
{}

/// A word is read as a number exactly where it is the text that the number is printed as.
pub fn numbers_are_as_printed()
    ensures { (word : List ℕ) (n : ℕ) → (number_of word ≡ Some n) ↔ IsNumberText n word }
{}

/// A word is read as the one target that it stands for.
pub fn words_stand_for_one_target()
    ensures { (word : List ℕ) (target : Target) → (target_of word ≡ target) ↔ IsTargetText target word }
{}

/// Said bytes acknowledge one number of commits. In front of other bytes, printed replies acknowledge as many commits
/// as they report. A reply of which the end is missing acknowledges nothing.
pub fn acknowledged_commits_add_up()
    ensures one { (said : List ℕ) (count other : ℕ) → IsAcknowledged said count → IsAcknowledged said other
        → count ≡ other }
    ensures more { (replies : List Reply) (behind : List ℕ) (count : ℕ) → All IsPrintable replies
        → IsAcknowledged behind count
        → IsAcknowledged (transcript replies ++ behind) (count_by is_committed replies + count) }
    ensures front { (reply : Reply) (front behind : List ℕ) → IsPrintable reply → reply_text reply ≡ front ++ behind
        → behind ≢ [] → IsAcknowledged front 0 }
{}
