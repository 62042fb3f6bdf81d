//! What a list of distances says of a router.

ghost use Rattle.std.specs.Prelude.{◌≡◌};
ghost use Rattle.net_types.specs.Distance.{distance_at};

/// The distance of a router in a list of distances, none where it has none.
pub fn distance_at(distances: &[Option<u64>], router: u8) -> Option<u64>
    ensures { result ≡ distance_at distances.now router }
{
    *distances.get(usize::from(router))?
}
