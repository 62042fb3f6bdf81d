//! Where in a file a line stands.

ghost use Rattle.std.specs.Prelude.{◌≡◌};
ghost use Rattle.frr_reader.specs.Table.{rank, modes_from, outer};

/// Where in a file a line stands.
#[derive(Clone, Copy, PartialEq, Eq, Debug)]
pub enum Mode {
    /// Outside each block.
    Top,
    /// In the block of an interface.
    InInterface,
    /// In `router bgp`.
    InBgp,
    /// In `router ospf`.
    InOspf,
    /// In the block of a route map's entry.
    InMap,
    /// In the address family of `router bgp`.
    InFamily,
}

impl Mode {
    /// A number of its own, to tell modes apart.
    pub fn rank(self) -> u8
        ensures { result ≡ rank self }
    {
        match self {
            Mode::Top => 0,
            Mode::InInterface => 1,
            Mode::InBgp => 2,
            Mode::InOspf => 3,
            Mode::InMap => 4,
            Mode::InFamily => 5,
        }
    }

    /// The mode round this one; the top has none round it.
    pub fn outer(self) -> Mode
        ensures { result ≡ outer self }
    {
        match self {
            Mode::Top | Mode::InInterface | Mode::InBgp | Mode::InOspf | Mode::InMap => Mode::Top,
            Mode::InFamily => Mode::InBgp,
        }
    }

    /// This mode and those round it, the innermost first.
    pub fn outwards(self) -> &'static [Mode]
        ensures { result.now ≡ modes_from self }
    {
        match self {
            Mode::Top => &[Mode::Top],
            Mode::InInterface => &[Mode::InInterface, Mode::Top],
            Mode::InBgp => &[Mode::InBgp, Mode::Top],
            Mode::InOspf => &[Mode::InOspf, Mode::Top],
            Mode::InMap => &[Mode::InMap, Mode::Top],
            Mode::InFamily => &[Mode::InFamily, Mode::InBgp, Mode::Top],
        }
    }
}
