//! What the program prints of bytes that are short, and of bytes that are more than enough.
use key_code_trip::carry;
use std::test::Fail;

#[test]
fn no_bytes_are_refused(rt: HostRuntime) -> Result<(), Fail> {
    let trip = carry(rt.alloc(), &[])?;
    assert!(rt; !trip.carried);
    assert_eq!(rt;
        trip.text.as_str(),
        "bytes to come: 0\nrefused: 18\nbytes given: 0\nnothing is written\n"
    );
    Ok(())
}

#[test]
fn six_numbers_are_refused(rt: HostRuntime) -> Result<(), Fail> {
    let trip = carry(rt.alloc(), &[1u8; 24])?;
    assert!(rt; !trip.carried);
    assert_eq!(rt;
        trip.text.as_str(),
        "bytes to come: 24\nrefused: 18\nbytes given: 24\nnothing is written\n"
    );
    Ok(())
}

#[test]
fn surplus_stays_in_the_source(rt: HostRuntime) -> Result<(), Fail> {
    let trip = carry(rt.alloc(), &[255u8; 30])?;
    assert!(rt; trip.carried);
    let text = trip.text.as_str();
    assert!(rt;
        text.starts_with("bytes to come: 30\nread a key code\n  film_manufacturer_code: -1\n")
    );
    assert!(rt; text.ends_with("bytes taken: 28\nverdict: the same bytes\n"));
    Ok(())
}
