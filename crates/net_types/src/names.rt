//! Names in a text.

ghost use Rattle.std.specs.Prelude.{◌≡◌, ◌&&◌, nat_le, length};
ghost use Rattle.std.specs.List.{list_all};
ghost use Rattle.net_types.specs.Names.{is_host, is_host_byte, is_name, is_name_byte, is_name_long};

/// Whether the text may be a host's name: 1 to 63 letters and digits of ASCII, `-`, `.` and `_`.
pub fn is_host(text: &[u8]) -> bool
    ensures { result ≡ is_host text.now }
{
    is_name_long(text) && are_host_bytes(text)
}

/// Whether the text may be the name of an interface, a list or a map: 1 to 63 bytes of 33 to 126.
pub fn is_name(text: &[u8]) -> bool
    ensures { result ≡ is_name text.now }
{
    is_name_long(text) && are_name_bytes(text)
}

fn is_name_long(text: &[u8]) -> bool
    ensures { result ≡ is_name_long text.now }
{
    1 <= text.len() && text.len() <= 63
}

fn are_host_bytes(text: &[u8]) -> bool
    ensures { result ≡ list_all is_host_byte text.now }
{
    text.iter().all(|byte| is_host_byte(*byte))
}

fn are_name_bytes(text: &[u8]) -> bool
    ensures { result ≡ list_all is_name_byte text.now }
{
    text.iter().all(|byte| is_between(*byte, 33, 126))
}

fn is_host_byte(byte: u8) -> bool
    ensures { result ≡ is_host_byte byte }
{
    is_between(byte, b'a', b'z')
        || is_between(byte, b'A', b'Z')
        || is_between(byte, b'0', b'9')
        || byte == b'-'
        || byte == b'.'
        || byte == b'_'
}

fn is_between(byte: u8, low: u8, high: u8) -> bool
    ensures { result ≡ (nat_le low byte && nat_le byte high) }
{
    low <= byte && byte <= high
}
