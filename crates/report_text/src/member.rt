//! A member of an object in JSON.
ghost use Rattle.std.specs.Prelude.{OnOk};
ghost use Rattle.report_text.specs.Sent.{SendsMember};

use serde::{Serialize, Serializer};

/// Sends a member of an object: its key and its value.
pub fn send_member<S: Serializer, T: Serialize>(
    out: &mut S,
    key: &str,
    value: &T,
) -> Result<(), S::Error>
    ensures { OnOk result (SendsMember key.now (T.writes value.now) (S.written out.old) (S.written out.new)) }
{
    out.key(key)?;
    value.serialize(out)
}
