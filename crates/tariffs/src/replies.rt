ghost use Rattle.std.specs.Prelude.{◌≡◌, ◌<◌, ◌≤◌, [], length, take};
ghost use Rattle.tariffs.specs.Replies.{counts_in};

/// The first bytes of a buffer, into which a reply of this size was written. None where it has fewer.
pub fn written(buffer: &[u8], size: usize) -> &[u8]
    ensures within { size ≤ length buffer.now → result.now ≡ take size buffer.now }
    ensures past { length buffer.now < size → result.now ≡ [] }
{
    buffer.get(..size).unwrap_or(&[])
}

/// The counts of certain and of possible rows: the body of a reply's first record.
pub fn counts(body: &[u8]) -> Option<(u16, u16)>
    ensures { result ≡ counts_in body.now }
{
    let [c0, c1, p0, p1] = body else {
        return None;
    };
    let certain = u16::from_le_bytes([*c0, *c1]);
    let possible = u16::from_le_bytes([*p0, *p1]);
    Some((certain, possible))
}
