ghost use Rattle.layout.specs.Numbers.{EachByte};

/// States of lent bytes what their type gives: each is below 256. The body does nothing.
pub fn each_byte(bytes: &[u8])
    ensures { EachByte bytes.now }
{}
