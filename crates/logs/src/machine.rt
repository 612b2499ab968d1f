// What the lines of a log are told to.
ghost use Rattle.std.specs.Prelude.{◌≡◌, ℕ, List, length, take, Option, Result as Res};
ghost use Rattle.refusals.specs.declared.Refusal.{Refusal as Refused};
ghost use Rattle.logs.specs.declared.line.Line.{Line as Told};
ghost use Rattle.logs.specs.declared.reply.Reply.{Reply as Said};
ghost use Rattle.logs.specs.Reports.{viewed, InRow};

use crate::line::Line;
use crate::reply::Reply;
use refusals::Refusal;

// A machine obeys one line after another. A line that prints nothing has no reply.
// Codes go into a row that the caller lends, since a machine takes no heap, and the reply counts them.
pub trait Machine {
    // the states of what the machine means
    ghost State: { Type 0 };

    ghost state: { Self → State };

    // the state after a line, and the reply to it, where the row has so many places
    ghost obeys: { ℕ → State → Told → State × Res (Option (Said (List ℕ))) Refused };

    fn obey(&mut self, line: Line, row: &mut [u32]) -> Result<Option<Reply<usize>>, Refusal>
        ensures after { state self.new ≡ (obeys (length row.old) (state self.old) line).0 }
        ensures reply { viewed (λ n. take n row.new) result ≡ (obeys (length row.old) (state self.old) line).1 }
        ensures within { InRow (length row.new) result };
}
