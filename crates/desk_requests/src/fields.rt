//! The fields of a head, by name.

ghost use Rattle.std.specs.Prelude.{◌≡◌, length, map, All, option_map};
ghost use Rattle.httparse.specs.Spans.{IsHeaderWithin, header_bytes};
ghost use Rattle.desk_requests.specs.Fields.{is_named, value_named, count_named};

use httparse::spans::HeaderSpan;

// Whether the field has this name.
fn is_named(buf: &[u8], field: &HeaderSpan, name: &[u8]) -> bool
    requires { IsHeaderWithin (length buf.now) field.now }
    ensures { result ≡ is_named name.now (header_bytes buf.now field.now) }
{
    field.name.of(buf).eq_ignore_ascii_case(name)
}

/// How many of the fields have this name.
pub fn count_named(buf: &[u8], fields: &[HeaderSpan], name: &[u8]) -> usize
    requires { All (IsHeaderWithin (length buf.now)) fields.now }
    ensures { result ≡ count_named name.now (map (header_bytes buf.now) fields.now) }
{
    let mut count = 0usize;
    for field in fields {
        if is_named(buf, field, name) {
            count += 1;
        }
    }
    count
}

/// The value of the first field with this name.
pub fn value_named<'b>(buf: &'b [u8], fields: &[HeaderSpan], name: &[u8]) -> Option<&'b [u8]>
    requires { All (IsHeaderWithin (length buf.now)) fields.now }
    ensures { option_map (λ v. v.now) result ≡ value_named name.now (map (header_bytes buf.now) fields.now) }
{
    for field in fields {
        if is_named(buf, field, name) {
            return Some(field.value.of(buf));
        }
    }
    None
}
