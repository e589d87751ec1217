// A record as it is written behind its gate.
ghost use Rattle.std.specs.Prelude.{◌≡◌, ◌<◌, ◌^◌, IfOk, length};
ghost use Rattle.dkv_journal.specs.Records.{first_layout, laid, IsLaid};

use crate::CLOSED_GATE;
use dkv_base::NoMemory;
use std::alloc::Global;
use std::marker::Model;

/// A record as it is written behind its gate: the body's length in four bytes, least first; the body; and the next gate, closed.
/// Contracts see it as these bytes.
#[derive(Debug, Drop)]
pub struct Laid {
    pub(crate) bytes: Vec<u8>,
}

impl Model for Laid {
    ghost use Rattle.std.specs.Prelude.{List, ℕ};

    ghost Value = { List ℕ };

    ghost view = { λ l. l.bytes.items };
}

impl Laid {
    // Makes room for a body and lays it out.
    pub(crate) fn of(alloc: Global, body: &[u8]) -> Result<Laid, NoMemory>
        requires { length body.now < 2 ^ 32 }
        ensures { IfOk result (λ l. l ≡ laid first_layout 0 body.now) }
    {
        let mut bytes = Vec::new(alloc);
        bytes.reserve(body.len() + 5)?;
        bytes.extend_from_slice(&(body.len() as u32).to_le_bytes())?;
        bytes.extend_from_slice(body)?;
        bytes.extend_from_slice(&[CLOSED_GATE])?;
        Ok(Laid { bytes })
    }

    // Puts a body in the place of one as long.
    pub(crate) fn put(&mut self, body: &[u8])
        requires { IsLaid (length body.now) self.old }
        ensures { self.new ≡ laid first_layout 0 body.now }
    {
        let end = 4 + body.len();
        let place = &mut self.bytes[4..end];
        place.copy_from_slice(body);
    }
}
