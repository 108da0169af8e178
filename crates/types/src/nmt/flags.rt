//! The NMT feature flags, object 0x1F82 (EPSG DS 301, Table 111). A head keeps their number and
//! reads none of them.
ghost use Rattle.std.specs.Prelude.{◌≡◌};
ghost use Rattle.types.specs.Flags.{flags, flag};

/// The flags of object 0x1F82, one bit each.
#[derive(Clone, Copy, Debug, PartialEq, Eq)]
pub struct FeatureFlags(pub u32);

impl FeatureFlags {
    /// Isochronous: takes part in the cycle.
    pub const ISOCHRONOUS: Self = Self(1 << 0);

    /// SDO by UDP/IP.
    pub const SDO_UDP: Self = Self(1 << 1);

    /// SDO by ASnd.
    pub const SDO_ASND: Self = Self(1 << 2);

    /// SDO by PDO.
    pub const SDO_PDO: Self = Self(1 << 3);

    /// NMT info services.
    pub const NMT_INFO_SERVICES: Self = Self(1 << 4);

    /// Extended NMT state commands.
    pub const EXTENDED_NMT_CMDS: Self = Self(1 << 5);

    /// Dynamic PDO mapping.
    pub const DYNAMIC_PDO_MAPPING: Self = Self(1 << 6);

    /// NMT service by UDP/IP.
    pub const NMT_SERVICE_UDP: Self = Self(1 << 7);

    /// Configuration manager.
    pub const CONFIG_MANAGER: Self = Self(1 << 8);

    /// Multiplexed access.
    pub const MULTIPLEXED_ACCESS: Self = Self(1 << 9);

    /// Node number set by software.
    pub const NODE_ID_BY_SW: Self = Self(1 << 10);

    /// Basic Ethernet mode of the managing node.
    pub const MN_BASIC_ETHERNET: Self = Self(1 << 11);

    /// Routing type 1.
    pub const ROUTING_TYPE_1: Self = Self(1 << 12);

    /// Routing type 2.
    pub const ROUTING_TYPE_2: Self = Self(1 << 13);

    /// SDO read and write all by index.
    pub const SDO_RW_ALL_BY_INDEX: Self = Self(1 << 14);

    /// SDO read and write multiple by index.
    pub const SDO_RW_MULTIPLE_BY_INDEX: Self = Self(1 << 15);

    /// Law of the named flags: each is the one bit that Table 111 of DS 301 gives it.
    pub fn named_flags()
        ensures isochronous { Self.ISOCHRONOUS ≡ flag 0 }
        ensures sdo_udp { Self.SDO_UDP ≡ flag 1 }
        ensures sdo_asnd { Self.SDO_ASND ≡ flag 2 }
        ensures sdo_pdo { Self.SDO_PDO ≡ flag 3 }
        ensures nmt_info_services { Self.NMT_INFO_SERVICES ≡ flag 4 }
        ensures extended_nmt_cmds { Self.EXTENDED_NMT_CMDS ≡ flag 5 }
        ensures dynamic_pdo_mapping { Self.DYNAMIC_PDO_MAPPING ≡ flag 6 }
        ensures nmt_service_udp { Self.NMT_SERVICE_UDP ≡ flag 7 }
        ensures config_manager { Self.CONFIG_MANAGER ≡ flag 8 }
        ensures multiplexed_access { Self.MULTIPLEXED_ACCESS ≡ flag 9 }
        ensures node_id_by_sw { Self.NODE_ID_BY_SW ≡ flag 10 }
        ensures mn_basic_ethernet { Self.MN_BASIC_ETHERNET ≡ flag 11 }
        ensures routing_type_1 { Self.ROUTING_TYPE_1 ≡ flag 12 }
        ensures routing_type_2 { Self.ROUTING_TYPE_2 ≡ flag 13 }
        ensures sdo_rw_all_by_index { Self.SDO_RW_ALL_BY_INDEX ≡ flag 14 }
        ensures sdo_rw_multiple_by_index { Self.SDO_RW_MULTIPLE_BY_INDEX ≡ flag 15 }
    {}

    /// The flags of a number, which is kept whole.
    pub fn from_bits_truncate(bits: u32) -> Self
        ensures { result ≡ flags bits }
    {
        Self(bits)
    }

    /// The flags' number.
    pub fn bits(self) -> u32
        ensures { self ≡ flags result }
    {
        self.0
    }
}
