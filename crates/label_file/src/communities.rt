//! Communities in the texts of a label file.

ghost use Rattle.std.specs.Prelude.{◌≡◌, ◌<◌, IfSome};
ghost use Rattle.net_types.specs.Communities.{community_of};
ghost use Rattle.label_file.specs.Communities.{community_in};

use net_types::{Net, read_community};

/// The number of the community of a text, where it is one of the network.
pub(crate) fn community_in(net: &Net, text: &str) -> Option<u8>
    ensures number { result ≡ community_in net.now text.now }
    ensures fits { IfSome result (λ number. number < 64) }
{
    match read_community(text.as_bytes()) {
        Some(value) => net.community_number(value),
        None => None,
    }
}
