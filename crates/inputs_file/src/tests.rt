//! A file that the tool wrote, whole and damaged. Lines and fields are those that docs/JOURNAL.md gives.

use crate::fault::{Fault, ReadError};
use crate::field::Field;
use crate::file::read;
use std::alloc::Global;
use std::test::*;

const FILE: &str = "\
jinnychair inputs 2\n\
library 0.12.0\n\
host a-host 2 (beta)\n\
date 2026-11-16 12:30:00 UTC \n\
views-from file  my views.txt\n\
views-sha256 ba7816bf8f01cfea414140de5dae2223b00361a396177a9cb410ff61f20015ad\n\
views 7\n\
rounds 3\n\
step 3f947ae147ae147b 0.02\n\
bound 3fd3333333333333 0.3\n\
one-axis yes\n\
min-counted 50\n\
base-fx 7ff8000000000000 NaN\n\
base-fy 7ff0000000000000 inf\n\
base-cx 4084000000000000 640\n\
base-cy 407e000000000000 480\n\
centre-x fff0000000000000 -inf\n\
centre-y 8000000000000000 -0\n\
tilt-x 3fb999999999999a 0.1\n\
tilt-x 8000000000000000 -0\n\
tilt-y 3fd0000000000000 0.25\n\
seed-fx 408c200000000000 900\n\
seed-fy 408c2c0000000000 901.5\n\
seed-cx 3fd5555555555555 0.3333333333333333\n\
seed-cy 8000000000000000 -0\n\
seed-tilt-x 3f947ae147ae147b 0.02\n\
seed-tilt-y bf847ae147ae147b -0.01\n\
note centre 655 470 stated\n\
note two-words two lines\n\
sha256 6faaf204bb9ad1ba484970323fd6c8d29220277f3316d0e3c63329b23d52830a\n\
";

fn fault_of(alloc: Global, bytes: &[u8]) -> Option<Fault> {
    match read(alloc, bytes) {
        Err(ReadError::Fault(fault)) => Some(fault),
        _ => None,
    }
}

#[test]
fn a_whole_file_is_read(rt: HostRuntime) -> Result<(), Fail> {
    let inputs = read(rt.alloc(), FILE.as_bytes())
        .ok()
        .ok_or("the file is whole")?;
    assert_eq!(rt; inputs.library.as_str(), "0.12.0");
    assert_eq!(rt; inputs.date.as_str(), "2026-11-16 12:30:00 UTC ");
    assert_eq!(rt; inputs.views, 7);
    assert_eq!(rt; inputs.options.rounds, 3);
    assert_eq!(rt; inputs.options.min_counted, 50);
    assert!(rt; inputs.options.one_axis && inputs.options.bound == 0.3);
    assert!(rt; inputs.base.fx.is_nan() && inputs.base.cx == 640.0);
    assert_eq!(rt; inputs.tilt_x.len(), 2);
    assert_eq!(rt; inputs.tilt_y.len(), 1);
    assert_eq!(rt; inputs.seeds.len(), 1);
    assert_eq!(rt; inputs.notes.len(), 2);
    Ok(())
}

#[test]
fn a_changed_byte_is_found_in_its_line(rt: HostRuntime) -> Result<(), Fail> {
    for (at, byte, line, expected) in [
        (18, b'3', 1, Field::Head),
        (39, b'-', 3, Field::Host),
        (61, b'\x7f', 4, Field::Date),
        (101, b'-', 5, Field::ViewsFrom),
        (129, b'B', 6, Field::ViewsSha256),
        (200, b'x', 7, Field::Views),
        (236, b'3', 9, Field::Step),
        (217, b'F', 9, Field::Step),
        (276, b't', 11, Field::OneAxis),
        (290, b'+', 12, Field::MinCounted),
        (318, b'n', 13, Field::BaseFx),
        (328, b'z', 14, Field::BaseFy),
        (502, b'z', 20, Field::Sha256),
        (619, b'z', 24, Field::SeedCx),
        (781, b'N', 29, Field::Sha256),
        (64, b'5', 30, Field::Sha256),
        (813, b'7', 30, Field::Sha256),
    ] {
        let mut bytes = Vec::from_slice(rt.alloc(), FILE.as_bytes())?;
        if let Some(place) = bytes.get_mut(at) {
            *place = byte;
        }
        let fault = fault_of(rt.alloc(), &bytes);
        assert_eq!(rt; fault, Some(Fault { line, expected }));
    }
    Ok(())
}

#[test]
fn a_cut_or_longer_file_is_refused(rt: HostRuntime) -> Result<(), Fail> {
    let mut bytes = Vec::from_slice(rt.alloc(), FILE.as_bytes())?;
    bytes.push(b'\n')?;
    let behind = Fault {
        line: 31,
        expected: Field::End,
    };
    assert_eq!(rt; fault_of(rt.alloc(), &bytes), Some(behind));
    let _ = bytes.pop();
    let _ = bytes.pop();
    let cut = Fault {
        line: 30,
        expected: Field::Sha256,
    };
    assert_eq!(rt; fault_of(rt.alloc(), &bytes), Some(cut));
    let nothing = Fault {
        line: 1,
        expected: Field::Head,
    };
    assert_eq!(rt; fault_of(rt.alloc(), b""), Some(nothing));
    Ok(())
}
