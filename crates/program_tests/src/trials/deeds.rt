// The script of the trials, and what each of its commands does to the group, by the rules and by
// hand.

/// One of the two files.
#[derive(Clone, Copy, Debug, PartialEq, Eq)]
pub enum File {
    U,
    V,
}

/// Some sectors of a file that get a byte.
#[derive(Clone, Copy, Debug, PartialEq, Eq)]
pub struct Fill {
    pub file: File,
    pub first: usize,
    pub count: usize,
    pub byte: u8,
}

/// What a command does where it is answered `ok`.
#[derive(Clone, Copy, Debug, PartialEq, Eq)]
pub enum Effect {
    /// The group is there, without files.
    Group,
    /// The file is there, of zeros.
    Made(File),
    Filled(Fill),
    /// A write of these sectors that was refused: they hold any bytes.
    Freed(Fill),
    /// The file U has an alias.
    Alias,
    /// The file is gone.
    Gone(File),
    /// The disks' modes are told.
    Report,
    /// A whole file is read.
    Read(File),
    /// The disk 1 is taken, and no file changes.
    Offline,
    /// It comes back.
    Online,
    /// The disk 2 is dropped by force, and what is lacking is copied anew.
    Forced,
}

/// A command of the script.
#[derive(Clone, Copy)]
pub struct Deed {
    pub text: &'static str,
    pub effect: Effect,
}

/// How many commands the script has.
pub const DEEDS: usize = 24;

const MODES: Deed = Deed {
    text: "lsdsk DATA\n",
    effect: Effect::Report,
};

/// The script: two files of 40K, writes, an OFFLINE and an ONLINE, a forced drop, an alias, and the
/// loss of a file. A report that makes no call stands between the commands that do, so that a
/// slice's calls are told from those of the next command.
pub const SCRIPT: [Deed; DEEDS] = [
    Deed {
        text: "CREATE DISKGROUP DATA DISK 'd0', 'd1', 'd2', 'd3' ATTRIBUTE 'au_size'='4K', 'dir_blocks'='128';\n",
        effect: Effect::Group,
    },
    MODES,
    Deed {
        text: "dbcreate +DATA/o/DATAFILE/u 40K\n",
        effect: Effect::Made(File::U),
    },
    Deed {
        text: "dbcreate +DATA/o/DATAFILE/v 40K\n",
        effect: Effect::Made(File::V),
    },
    Deed {
        text: "dbfill +DATA/o/DATAFILE/u.256.1 0 40K 61\n",
        effect: Effect::Filled(Fill {
            file: File::U,
            first: 0,
            count: 80,
            byte: 0x61,
        }),
    },
    Deed {
        text: "dbfill +DATA/o/DATAFILE/v.257.2 4K 9K 62\n",
        effect: Effect::Filled(Fill {
            file: File::V,
            first: 8,
            count: 18,
            byte: 0x62,
        }),
    },
    MODES,
    Deed {
        text: "dbread +DATA/o/DATAFILE/u.256.1 0 40K\n",
        effect: Effect::Read(File::U),
    },
    Deed {
        text: "ALTER DISKGROUP DATA OFFLINE DISK DATA_0001;\n",
        effect: Effect::Offline,
    },
    Deed {
        text: "dbfill +DATA/o/DATAFILE/u.256.1 3584 1K 63\n",
        effect: Effect::Filled(Fill {
            file: File::U,
            first: 7,
            count: 2,
            byte: 0x63,
        }),
    },
    Deed {
        text: "dbfill +DATA/o/DATAFILE/v.257.2 36K 4K 64\n",
        effect: Effect::Filled(Fill {
            file: File::V,
            first: 72,
            count: 8,
            byte: 0x64,
        }),
    },
    Deed {
        text: "dbread +DATA/o/DATAFILE/v.257.2 0 40K\n",
        effect: Effect::Read(File::V),
    },
    MODES,
    Deed {
        text: "ALTER DISKGROUP DATA ONLINE DISK DATA_0001;\n",
        effect: Effect::Online,
    },
    MODES,
    Deed {
        text: "dbfill +DATA/o/DATAFILE/u.256.1 8K 512 65\n",
        effect: Effect::Filled(Fill {
            file: File::U,
            first: 16,
            count: 1,
            byte: 0x65,
        }),
    },
    Deed {
        text: "mkalias +DATA/o/DATAFILE/u.256.1 +DATA/x\n",
        effect: Effect::Alias,
    },
    MODES,
    Deed {
        text: "ALTER DISKGROUP DATA DROP DISK DATA_0002 FORCE REBALANCE POWER 4 WAIT;\n",
        effect: Effect::Forced,
    },
    MODES,
    Deed {
        text: "dbfill +DATA/x 12K 8K 66\n",
        effect: Effect::Filled(Fill {
            file: File::U,
            first: 24,
            count: 16,
            byte: 0x66,
        }),
    },
    Deed {
        text: "rm +DATA/o/DATAFILE/v.257.2\n",
        effect: Effect::Gone(File::V),
    },
    Deed {
        text: "dbread +DATA/x 0 40K\n",
        effect: Effect::Read(File::U),
    },
    MODES,
];
