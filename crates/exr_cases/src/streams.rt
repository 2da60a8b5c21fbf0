//! Sources and sinks at their ends: short counts, device numbers, full buffers and blocks.
use exr_data::bits_16::F16;
use exr_error::stop::{Full, Stop};
use exr_io::number::{read_le, write_le};
use exr_io::sequence_end::has_come;
use exr_peek::peek_read::PeekRead;
use exr_read::read::{Short, read_byte, read_exact};
use exr_sink::block::Block;
use exr_sink::lent::LentBuffer;
use exr_sink::write::write_all;
use exr_source::chain::Chain;
use exr_source::held::HeldBytes;

#[test]
fn a_chain_is_read_across_its_joint(rt: HostRuntime) {
    let mut chain = Chain::new(HeldBytes::new(&[1, 2]), HeldBytes::new(&[3, 4, 5]));
    let mut buffer = [9u8; 4];
    assert!(rt; read_exact(&mut chain, &mut buffer).is_ok());
    assert_eq!(rt; buffer, [1, 2, 3, 4]);
    let mut rest = [9u8; 3];
    let short = Short {
        stop: Stop::End,
        got: 1,
    };
    assert!(rt; read_exact(&mut chain, &mut rest) == Err(short));
    assert_eq!(rt; rest, [5, 9, 9]);
}

#[test]
fn a_kept_byte_is_given_once(rt: HostRuntime) {
    let mut peek = PeekRead::new(HeldBytes::new(&[7, 0]));
    assert!(rt; peek.peek_u8() == Ok(7));
    assert!(rt; has_come(&mut peek) == Ok(false));
    assert!(rt; read_byte(&mut peek) == Ok(7));
    assert!(rt; has_come(&mut peek) == Ok(true));
    assert!(rt; peek.peek_u8() == Err(Stop::End));
}

#[test]
fn a_buffer_takes_its_length(rt: HostRuntime) {
    let mut buffer = [0u8; 3];
    let mut sink = LentBuffer::new(&mut buffer);
    assert!(rt; write_all(&mut sink, &[1, 2, 3, 4]) == Err(Full { number: 1 }));
    assert_eq!(rt; sink.count(), 3);
    assert_eq!(rt; buffer, [1, 2, 3]);
}

#[test]
fn a_block_takes_4096_bytes(rt: HostRuntime) {
    let mut block = Block::new();
    assert!(rt; write_all(&mut block, &[1u8; 4096]).is_ok());
    assert_eq!(rt; block.taken().len(), 4096);
    assert!(rt; write_le(&mut block, F16 { bits: 1 }) == Err(Full { number: 2 }));
}

#[test]
fn numbers_are_lowest_byte_first(rt: HostRuntime) {
    let mut block = Block::new();
    assert!(rt; write_le(&mut block, -2i32).is_ok());
    assert!(rt; write_le(&mut block, 1.0f32).is_ok());
    assert!(rt; block.taken() == [0xfe, 0xff, 0xff, 0xff, 0, 0, 0x80, 0x3f].as_slice());
    let mut source = HeldBytes::new(&[0xfe, 0xff, 0xff, 0xff]);
    let number: Result<i32, Stop> = read_le(&mut source);
    assert!(rt; number == Ok(-2));
}
