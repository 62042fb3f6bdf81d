//! Three routers in a line.

/// The first router.
pub const FIRST: &str =
    "hostname r1\ninterface eth0\n ip address 10.0.0.1/30\n ip ospf area 0\nrouter ospf\n";

/// The one between.
pub const SECOND: &str =
    "hostname r2\ninterface eth0\n ip address 10.0.0.2/30\n ip ospf area 0\ninterface eth1\n ip address 10.0.1.1/30\n ip ospf area 0\nrouter ospf\n";

/// The last one, which has a loopback.
pub const THIRD: &str =
    "hostname r3\ninterface eth0\n ip address 10.0.1.2/30\n ip ospf area 0\ninterface lo\n ip address 10.9.0.3/32\n ip ospf area 0\nrouter ospf\n";

/// One property: the first router reaches the last one's loopback.
pub const PROPERTY: &str =
    "[[property]]\nname = \"p1\"\nkind = \"reach\"\nrouter = \"r1\"\nprefix = \"10.9.0.3/32\"\nfailures = 0\n";
