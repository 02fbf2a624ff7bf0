//! Tests of looks at images, and of the header of a disk whose group has a sector of 4,096 bytes,
//! on disks in memory.

mod headers;
