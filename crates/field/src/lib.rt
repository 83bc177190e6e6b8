// GF(256), the field of the code: bytes as polynomials over the two-element field, modulo z^8 + z^4 + z^3 + z^2 + 1
// (285). The promises speak of the values F and their operations, defined in specs/Definition.antt: `val g` is the
// value of a `Gf`. A product costs two logarithms and a power, whatever its factors are.
#![tactic(auto)]

ghost use Rattle.std.specs.Prelude.{◌<◌, ◌≡◌, map};
ghost use Rattle.field.specs.Definition.{◌⊕◌, ◌⊙◌, α, pow, inv, log, is_zero, val, named, power_table, log_table};

// A field value: bit i of the byte is the coefficient of z^i.
#[derive(Clone, Copy, Debug, PartialEq, Eq)]
pub struct Gf(pub u8);

// An exponent of α, never a field value: the two tables alone lead from one to the other. Any number is one.
#[derive(Clone, Copy, Debug, PartialEq, Eq)]
pub struct Exponent(pub usize);

// At k: α^k, for k below 255. The last entry is of no power, and 0.
const POWER: [u8; 256] = *b"\x01\x02\x04\x08\x10\x20\x40\x80\x1d\x3a\x74\xe8\xcd\x87\x13\x26\
    \x4c\x98\x2d\x5a\xb4\x75\xea\xc9\x8f\x03\x06\x0c\x18\x30\x60\xc0\
    \x9d\x27\x4e\x9c\x25\x4a\x94\x35\x6a\xd4\xb5\x77\xee\xc1\x9f\x23\
    \x46\x8c\x05\x0a\x14\x28\x50\xa0\x5d\xba\x69\xd2\xb9\x6f\xde\xa1\
    \x5f\xbe\x61\xc2\x99\x2f\x5e\xbc\x65\xca\x89\x0f\x1e\x3c\x78\xf0\
    \xfd\xe7\xd3\xbb\x6b\xd6\xb1\x7f\xfe\xe1\xdf\xa3\x5b\xb6\x71\xe2\
    \xd9\xaf\x43\x86\x11\x22\x44\x88\x0d\x1a\x34\x68\xd0\xbd\x67\xce\
    \x81\x1f\x3e\x7c\xf8\xed\xc7\x93\x3b\x76\xec\xc5\x97\x33\x66\xcc\
    \x85\x17\x2e\x5c\xb8\x6d\xda\xa9\x4f\x9e\x21\x42\x84\x15\x2a\x54\
    \xa8\x4d\x9a\x29\x52\xa4\x55\xaa\x49\x92\x39\x72\xe4\xd5\xb7\x73\
    \xe6\xd1\xbf\x63\xc6\x91\x3f\x7e\xfc\xe5\xd7\xb3\x7b\xf6\xf1\xff\
    \xe3\xdb\xab\x4b\x96\x31\x62\xc4\x95\x37\x6e\xdc\xa5\x57\xae\x41\
    \x82\x19\x32\x64\xc8\x8d\x07\x0e\x1c\x38\x70\xe0\xdd\xa7\x53\xa6\
    \x51\xa2\x59\xb2\x79\xf2\xf9\xef\xc3\x9b\x2b\x56\xac\x45\x8a\x09\
    \x12\x24\x48\x90\x3d\x7a\xf4\xf5\xf7\xf3\xfb\xeb\xcb\x8b\x0b\x16\
    \x2c\x58\xb0\x7d\xfa\xe9\xcf\x83\x1b\x36\x6c\xd8\xad\x47\x8e\x00";

// At b: the exponent of b, a power of α. The first entry, of zero, serves nobody.
const LOG: [u8; 256] = *b"\x00\x00\x01\x19\x02\x32\x1a\xc6\x03\xdf\x33\xee\x1b\x68\xc7\x4b\
    \x04\x64\xe0\x0e\x34\x8d\xef\x81\x1c\xc1\x69\xf8\xc8\x08\x4c\x71\
    \x05\x8a\x65\x2f\xe1\x24\x0f\x21\x35\x93\x8e\xda\xf0\x12\x82\x45\
    \x1d\xb5\xc2\x7d\x6a\x27\xf9\xb9\xc9\x9a\x09\x78\x4d\xe4\x72\xa6\
    \x06\xbf\x8b\x62\x66\xdd\x30\xfd\xe2\x98\x25\xb3\x10\x91\x22\x88\
    \x36\xd0\x94\xce\x8f\x96\xdb\xbd\xf1\xd2\x13\x5c\x83\x38\x46\x40\
    \x1e\x42\xb6\xa3\xc3\x48\x7e\x6e\x6b\x3a\x28\x54\xfa\x85\xba\x3d\
    \xca\x5e\x9b\x9f\x0a\x15\x79\x2b\x4e\xd4\xe5\xac\x73\xf3\xa7\x57\
    \x07\x70\xc0\xf7\x8c\x80\x63\x0d\x67\x4a\xde\xed\x31\xc5\xfe\x18\
    \xe3\xa5\x99\x77\x26\xb8\xb4\x7c\x11\x44\x92\xd9\x23\x20\x89\x2e\
    \x37\x3f\xd1\x5b\x95\xbc\xcf\xcd\x90\x87\x97\xb2\xdc\xfc\xbe\x61\
    \xf2\x56\xd3\xab\x14\x2a\x5d\x9e\x84\x3c\x39\x53\x47\x6d\x41\xa2\
    \x1f\x2d\x43\xd8\xb7\x7b\xa4\x76\xc4\x17\x49\xec\x7f\x0c\x6f\xf6\
    \x6c\xa1\x3b\x52\x29\x9d\x55\xaa\xfb\x60\x86\xb1\xbb\xcc\x3e\x5a\
    \xcb\x59\x5f\xb0\x9c\xa9\xa0\x51\x0b\xf5\x16\xeb\x7a\x75\x2c\xd7\
    \x4f\xae\xd5\xe9\xe6\xe7\xad\xe8\x74\xd6\xf4\xea\xa8\x50\x58\xaf";

// The table of powers, for loops that read many of them: `Exponent::power_in` reads it.
pub fn powers() -> [u8; 256]
    ensures { result ≡ power_table }
{
    POWER
}

// The table of logarithms, for loops that read many of them: `Gf::log_in` reads it.
pub fn logarithms() -> [u8; 256]
    ensures { result ≡ log_table }
{
    LOG
}

impl Gf {
    pub const ZERO: Gf = Gf(0);

    pub const ONE: Gf = Gf(1);

    pub const ALPHA: Gf = Gf(2);

    // The named values, by what they are.
    pub fn named() -> [Gf; 3]
        ensures { map val result ≡ named }
    {
        [Gf::ZERO, Gf::ONE, Gf::ALPHA]
    }

    pub fn is_zero(self) -> bool
        ensures { result ≡ is_zero (val self) }
    {
        self.0 == 0
    }

    pub fn sum(self, other: Gf) -> Gf
        ensures { val result ≡ val self ⊕ val other }
    {
        Gf(self.0 ^ other.0)
    }

    // The exponent below 255 of which this is the power; 0 for zero, which is none.
    pub fn log(self) -> Exponent
        ensures { result.0 ≡ log (val self) }
    {
        let b = self.0 as usize;
        Exponent(LOG[b] as usize)
    }

    // The same, with the table lent.
    pub fn log_in(self, table: &[u8; 256]) -> Exponent
        requires { table.now ≡ log_table }
        ensures { result.0 ≡ log (val self) }
    {
        let b = self.0 as usize;
        let e = table[b];
        Exponent(e as usize)
    }

    pub fn product(self, other: Gf) -> Gf
        ensures { val result ≡ val self ⊙ val other }
    {
        if self.0 == 0 {
            return Gf::ZERO;
        }
        if other.0 == 0 {
            return Gf::ZERO;
        }
        let j = self.log();
        let k = other.log();
        Exponent(j.0 + k.0).power()
    }

    // The inverse of zero is zero.
    pub fn inverse(self) -> Gf
        ensures { val result ≡ inv (val self) }
    {
        if self.0 == 0 {
            return Gf::ZERO;
        }
        let k = self.log();
        Exponent(255 - k.0).power()
    }
}

impl Exponent {
    // α to this power; exponents count modulo 255.
    pub fn power(self) -> Gf
        ensures { val result ≡ pow α self.0 }
    {
        Gf(POWER[self.0 % 255])
    }

    // The same, with the table lent, for an exponent below 255.
    pub fn power_in(self, table: &[u8; 256]) -> Gf
        requires { (table.now ≡ power_table) × (self.0 < 255) }
        ensures { val result ≡ pow α self.0 }
    {
        let e = self.0;
        Gf(table[e])
    }
}
