//! Why an input is refused: one variant a cause, in the order in which causes are tried, with the place.

use crate::Prefix;

/// Why a configuration file is refused: the first refused line, and in it the first of this order; then
/// what is found when all lines are read. Lines are counted from 1.
#[derive(Clone, Copy, PartialEq, Eq, Debug)]
pub enum ReadRefusal {
    /// The line holds a control byte other than a tab.
    NotText(u64),
    /// The line is longer than 512 bytes.
    LineTooLong(u64),
    /// The line has the head of no row of the line table.
    Unsupported(u64),
    /// The line has the head of a row, and of none that may stand there, or is of a neighbor before its
    /// `remote-as`.
    OutOfPlace(u64),
    /// What follows the head does not fit the row.
    BadValue(u64),
    /// What the line sets is already set.
    Repeated(u64),
    /// The line adds one entry too many, or reaches past the greatest size of a file.
    OutOfLimit(u64),
    /// No line names the host.
    NoHostname,
    /// The line names a map or a list that the file does not define.
    Undefined(u64),
    /// The line prepends an AS number that is not the file's own.
    ForeignAs(u64),
    /// There was no memory.
    NoMemory,
}

/// Why configurations make no network. The pairs are the least positions in the slice of configurations.
#[derive(Clone, Copy, PartialEq, Eq, Debug)]
pub enum NetRefusal {
    /// Two configurations name one host.
    SameHost(u64, u64),
    /// Two configurations have one AS number.
    SameAs(u64, u64),
    /// Two interfaces, maybe of one router, have one address.
    SameAddress(u64, u64),
    /// The interfaces in this prefix make neither a link nor a stub.
    SharedSubnet(Prefix),
    /// There are this many links, which are too many.
    TooManyLinks(u64),
    /// There are this many communities, which are too many.
    TooManyCommunities(u64),
    /// There are this many routers, which are too many.
    TooManyRouters(u64),
    /// There was no memory.
    NoMemory,
}

/// Why the files of a folder make no network. Files are counted from 0.
#[derive(Clone, Copy, PartialEq, Eq, Debug)]
pub enum BundleRefusal {
    /// There are this many files, which are too many.
    TooManyFiles(u64),
    /// The files have this many bytes together, which are too many.
    TooLarge(u64),
    /// The file of this number is refused.
    InFile(u64, ReadRefusal),
    /// The files are read, and their configurations make no network.
    InNet(NetRefusal),
    /// There was no memory.
    NoMemory,
}

/// Which of the two bundles of a change.
#[derive(Clone, Copy, PartialEq, Eq, Debug)]
pub enum BundleSide {
    /// The configurations before it.
    Base,
    /// The configurations after it.
    New,
}

/// Why a TOML file is refused. Place 0 is its top level; its tables are counted from 1.
#[derive(Clone, Copy, PartialEq, Eq, Debug)]
pub enum FormRefusal {
    /// The file has more than 262,144 bytes.
    TooLong,
    /// The text is no TOML.
    NotToml,
    /// A field of this place is missing, unknown, of the wrong kind or out of range.
    BadField(u64),
    /// The table of this place repeats a name.
    SameName(u64),
    /// There are this many tables, which are too many.
    TooMany(u64),
    /// There was no memory.
    NoMemory,
}
