// Bytes, and the numbers that they are. For the planes of bytes of document 02, section 4.
#![tactic(auto)]

ghost use Rattle.std.specs.Prelude.{◌≡◌, true, ◌≤◌, pos, nat_abs};
ghost use Rattle.octets.specs.Octets.{is_byte};

// A byte as a number.
pub fn number(x: u8) -> i32
    ensures { (result ≡ pos x) × (x ≤ 255) }
{
    i32::from(x)
}

// A number of 0 .. 255 as a byte.
pub fn byte(z: i32) -> u8
    requires { is_byte z ≡ true }
    ensures { result ≡ nat_abs z }
{
    z as u8
}
