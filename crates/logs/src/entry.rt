// The lines of a report.
ghost use Rattle.std.specs.Prelude.{Some};
ghost use Rattle.logs.specs.Reports.{fault_text, reply_text, entry_text, codes_of, map_reply, viewed};

use crate::fault::RunFault;
use crate::reply::Reply;
use fields::written::AfterCommas;
use std::fmt;

// What the report says of a line.
#[derive(Clone, Copy)]
pub struct Entry<'a> {
    pub line: u32,
    pub result: Result<Option<Reply<AfterCommas<'a>>>, RunFault>,
}

impl fmt::Display for RunFault {
    ghost output = { λ x. Some (fault_text x) };

    fn fmt<W: fmt::Write>(&self, f: &mut fmt::Formatter<W>) -> fmt::Result {
        let number = self.number();
        match self.place() {
            None => write!(f, "!,{number}"),
            Some(field) => write!(f, "!,{number},{field}"),
        }
    }
}

impl fmt::Display for Reply<AfterCommas<'_>> {
    ghost output = { λ x. Some (reply_text (map_reply codes_of x)) };

    fn fmt<W: fmt::Write>(&self, f: &mut fmt::Formatter<W>) -> fmt::Result {
        match self {
            Reply::Started(issued) => write!(f, "S,{issued}"),
            Reply::Advanced(issued) => write!(f, "A,{issued}"),
            Reply::Weighed(total) => write!(f, "W,{total}"),
            Reply::Resampled(freed) => write!(f, "R,{freed}"),
            Reply::Shared((sum, total)) => write!(f, "E,{sum},{total}"),
            Reply::Path(codes) => write!(f, "P{codes}"),
            Reply::Finished(freed) => write!(f, "F,{freed}"),
        }
    }
}

impl fmt::Display for Entry<'_> {
    ghost output = { λ x. Some (entry_text x.line (viewed codes_of x.result)) };

    fn fmt<W: fmt::Write>(&self, f: &mut fmt::Formatter<W>) -> fmt::Result {
        let Entry { line, result } = self;
        match result {
            Ok(None) => Ok(()),
            Ok(Some(reply)) => writeln!(f, "{line},{reply}"),
            Err(fault) => writeln!(f, "{line},{fault}"),
        }
    }
}
