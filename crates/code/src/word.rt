// A code word split into its kind and its operand.
ghost use Rattle.std.specs.Prelude.{◌≡◌, ◌/◌, ◌%◌, ◌<◌};

// The top four bits.
pub fn kind(w: u16) -> u16
    ensures { (result ≡ w / 4096) × (result < 16) }
{
    w >> 12
}

// The low twelve bits.
pub fn operand(w: u16) -> u16
    ensures { (result ≡ w % 4096) × (result < 4096) }
{
    w & 4095
}
