//! An image file of which a read has failed. The program never continues with one.

use iol_disk::{DiskFault, ImageFile, SECTOR_OCTETS, SectorDisk};
use std::fs::{self, File, OpenFile};

#[test]
fn a_read_of_a_file_that_was_cut_fails_and_the_next_goes_well(rt: HostRuntime) {
    let path = "image_file_test.img";
    let _ = fs::remove_file(&rt, path);
    let Ok(mut disk) = ImageFile::create(&rt, path, 2) else {
        panic!(rt; "a file to make")
    };
    let cut = File::options()
        .write(true)
        .open(&rt, path)
        .expect(&rt, "a file to open");
    cut.set_len(700).expect(&rt, "a file to cut");
    let mut octets = [7; SECTOR_OCTETS];
    assert!(rt; disk.read(1, &mut octets) == Err(DiskFault::Read));
    cut.set_len(1024).expect(&rt, "a file to grow");
    disk.read(1, &mut octets).expect(&rt, "a sector to read");
    assert!(rt; octets == [0; SECTOR_OCTETS]);
    assert!(rt; disk.write(0, &octets).is_ok() && disk.sync().is_ok());
    let _ = fs::remove_file(&rt, path);
}
