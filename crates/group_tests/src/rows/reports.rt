//! Rows on the reports of a group.

use crate::answers::Answer;
use crate::facts::{Fact, Found, Report};
use crate::rows::shared::{F3, MAKE};
use crate::steps::{Statement, Step, Wrong};
use crate::trials::{Then, play};
use std::alloc::Global;

const NAMES: &[u8] = b"Type Redund Striped Sys Name\n";

/// What a new group with a file of four extents shows of its disks. Each has 754 units for users.
const DISKS: [Step; 17] = [
    MAKE,
    Step::Tells(Fact::Prints(
        Report::Attributes,
        b"Name Value\nau_size 4096\ncompatible.advm 11.2\ncompatible.asm 11.2\ncompatible.rdbms 11.2\ndir_blocks 128\ndisk_repair_time 12960s\nextent_step 20000\nsector_size 512\n",
    )),
    Step::Tells(Fact::Prints(
        Report::Templates,
        b"Name Redund Striped Sys\nARCHIVELOG MIRROR COARSE Y\nAUTOBACKUP MIRROR COARSE Y\nBACKUPSET MIRROR COARSE Y\nCHANGETRACKING MIRROR COARSE Y\nCONTROLFILE HIGH FINE Y\nDATAFILE MIRROR COARSE Y\nDATAGUARDCONFIG MIRROR COARSE Y\nDUMPSET MIRROR COARSE Y\nFLASHBACK MIRROR COARSE Y\nONLINELOG MIRROR COARSE Y\nPARAMETERFILE MIRROR COARSE Y\nTEMPFILE MIRROR COARSE Y\nXTRANSPORT MIRROR COARSE Y\n",
    )),
    Step::Tells(Fact::Prints(
        Report::Disks,
        b"Number Mode Failgroup Kind Total Free Name\n0 Online D_0000 REGULAR 1024 752 D_0000\n1 Online D_0001 REGULAR 1024 752 D_0001\n2 Online D_0002 REGULAR 1024 752 D_0002\n3 Online D_0003 REGULAR 1024 752 D_0003\n",
    )),
    Step::Tells(Fact::Prints(
        Report::Group,
        b"State Type Rebal Sector Block AU Total Free Offline Name\nMOUNTED NORMAL N 512 4096 4096 4096 3008 0 D\n",
    )),
    Step::Tells(Fact::Prints(
        Report::Dismounted,
        b"State Type Rebal Sector Block AU Total Free Offline Name\nDISMOUNTED - - - - - - - - D\n",
    )),
    Step::Tells(Fact::Prints(Report::Check, b"check 4 0\n")),
    Step::Tells(Fact::Prints(Report::DiskName(3), b"D_0003")),
    Step::Tells(Fact::Prints(Report::DiskName(4), b"")),
    Step::State(Statement::Offline(0b1000, None), Answer::Done),
    Step::State(Statement::Rebalance(Some(0)), Answer::Done),
    Step::Tells(Fact::Totals(true, 4096, 3008, 1)),
    Step::Tells(Fact::Prints(Report::Check, b"check 4 2\n")),
    Step::State(Statement::Drop(&[F3], 2), Answer::Done),
    Step::Tells(Fact::Totals(true, 3072, 2256, 0)),
    Step::Tells(Fact::Prints(
        Report::Group,
        b"State Type Rebal Sector Block AU Total Free Offline Name\nMOUNTED NORMAL Y 512 4096 4096 3072 2256 0 D\n",
    )),
    Step::Tells(Fact::Prints(
        Report::Disks,
        b"Number Mode Failgroup Kind Total Free Name\n0 Online D_0000 REGULAR 1024 752 D_0000\n1 Online D_0001 REGULAR 1024 752 D_0001\n2 Online D_0002 REGULAR 1024 752 D_0002\n3 Forced D_0003 REGULAR 1024 752 D_0003\n",
    )),
];

/// A second file.
const MAKE_ANOTHER: Step = Step::MakeFile(1, Answer::Done);

/// The first file has an alias.
const MAKE_ALIAS: Step = Step::MakeAlias(b"+D/o/x", b"+D/o/DATAFILE/t.256.1", Answer::Done);

/// Names in any case, as the group spells them.
const LISTED: [Step; 20] = [
    MAKE,
    MAKE_ANOTHER,
    MAKE_ALIAS,
    Step::Tells(Fact::Prints(
        Report::Root,
        b"Type Redund Striped Sys Name\nDIR - - N D/\n",
    )),
    Step::Tells(Fact::Prints(Report::Names(&[], false), b"o/\n")),
    Step::Tells(Fact::Prints(Report::Names(&[b"O"], false), b"DATAFILE/\nx\n")),
    Step::Tells(Fact::Prints(
        Report::Names(&[b"o"], true),
        b"Type Redund Striped Sys Name\nDIR - - N DATAFILE/\nDATAFILE MIRROR COARSE N x => +D/o/DATAFILE/t.256.1\n",
    )),
    Step::Tells(Fact::Prints(
        Report::Names(&[b"o", b"datafile"], true),
        b"Type Redund Striped Sys Name\nDATAFILE MIRROR COARSE Y t.256.1\nDATAFILE MIRROR COARSE Y t.257.2\n",
    )),
    Step::Tells(Fact::Prints(
        Report::Names(&[b"o", b"DATAFILE", b"T.257.2"], false),
        b"t.257.2\n",
    )),
    Step::Tells(Fact::Prints(
        Report::Names(&[b"o", b"DATAFILE", b"t.*.1"], false),
        b"t.256.1\n",
    )),
    Step::Tells(Fact::Prints(Report::Names(&[b"o", b"y*"], true), NAMES)),
    Step::Tells(Fact::Prints(Report::Names(&[b"y"], false), b"NoName")),
    Step::Tells(Fact::Prints(Report::Names(&[b"y", b"*"], false), b"NoName")),
    Step::Tells(Fact::Prints(Report::Names(&[b"o", b"x", b"*"], false), b"NotDirectory")),
    Step::Tells(Fact::Prints(
        Report::Under(b"+D/o", b"D*"),
        b"Type Redund Striped Sys Name\nDIR - - N DATAFILE/\n",
    )),
    Step::Tells(Fact::Prints(
        Report::Row(b"+D/o/x", b"X"),
        b"Type Redund Striped Sys Name\nDATAFILE MIRROR COARSE N x => +D/o/DATAFILE/t.256.1\n",
    )),
    Step::Tells(Fact::Prints(Report::Row(b"+D/o/x", b"y"), b"")),
    Step::Tells(Fact::Directory(b"+d/O/datafile", Found::Directory)),
    Step::Tells(Fact::Directory(b"+D/y", Found::NoName)),
    Step::Tells(Fact::Directory(b"+D/o/x", Found::NotDirectory)),
];

/// What is found below a directory, and what files take.
const FOUND: [Step; 15] = [
    MAKE,
    MAKE_ANOTHER,
    MAKE_ALIAS,
    Step::Tells(Fact::Prints(
        Report::PathOf(b"+d/O/datafile"),
        b"+D/o/DATAFILE\n+D/o/DATAFILE",
    )),
    Step::Tells(Fact::Prints(Report::PathOf(b"+D/y"), b"")),
    Step::Tells(Fact::Prints(
        Report::Found(&[], b"*"),
        b"+D/o/DATAFILE/t.256.1\n+D/o/DATAFILE/t.257.2\n+D/o/x\n",
    )),
    Step::Tells(Fact::Prints(
        Report::Found(&[b"O", b"DATAFILE"], b"T.*"),
        b"+D/o/DATAFILE/t.256.1\n+D/o/DATAFILE/t.257.2\n",
    )),
    Step::Tells(Fact::Prints(Report::Found(&[b"o"], b"x"), b"+D/o/x\n")),
    Step::Tells(Fact::Prints(Report::Found(&[b"y"], b"*"), b"")),
    Step::Tells(Fact::Prints(Report::Usage(&[]), b"Used Mirror_used\n20480 40960\n")),
    Step::Tells(Fact::Prints(
        Report::Usage(&[b"o", b"datafile"]),
        b"Used Mirror_used\n20480 40960\n",
    )),
    Step::Tells(Fact::Prints(Report::Usage(&[b"y"]), b"Used Mirror_used\n0 0\n")),
    Step::Tells(Fact::FileUnits(256, 8)),
    Step::Tells(Fact::FileUnits(257, 2)),
    Step::Tells(Fact::FileUnits(258, 0)),
];

pub fn play_reports(alloc: Global) -> Result<(), Wrong> {
    play(alloc, "reports on disks", &DISKS, Then::Ends)?;
    play(alloc, "names that are listed", &LISTED, Then::Ends)?;
    play(alloc, "names that are found", &FOUND, Then::Ends)
}
