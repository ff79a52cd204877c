//! Numbers cut to their low bits.
ghost use Rattle.std.specs.Prelude.{◌≡◌, ◌%◌, ◌^◌};
ghost use Rattle.std.specs.Int.{w8, w16, w32, cast_signed, cast_unsigned};

/// The low 16 bits of `a`, in two's complement.
pub fn truncate_i32_to_i16(a: i32) -> i16
    ensures low_bits { result ≡ cast_signed w16 (cast_unsigned w32 a % 2 ^ 16) }
{
    ((a.cast_unsigned() % 65536) as u16).cast_signed()
}

/// The low 8 bits of `a`, in two's complement.
pub fn truncate_i32_to_i8(a: i32) -> i8
    ensures low_bits { result ≡ cast_signed w8 (cast_unsigned w32 a % 2 ^ 8) }
{
    ((a.cast_unsigned() % 256) as u8).cast_signed()
}

#[cfg(test)]
mod tests {
    use super::*;
    use std::test::Fail;

    #[test]
    fn high_bits_are_cut_off(rt: HostRuntime) -> Result<(), Fail> {
        for (a, to_i16, to_i8) in [
            (0, 0, 0),
            (-1, -1, -1),
            (127, 127, 127),
            (128, 128, -128),
            (-129, -129, 127),
            (32768, -32768, 0),
            (65537, 1, 1),
            (305419896, 22136, 120),
            (i32::MIN, 0, 0),
            (i32::MAX, -1, -1),
        ] {
            assert_eq!(rt; truncate_i32_to_i16(a), to_i16, "{a} to 16 bits");
            assert_eq!(rt; truncate_i32_to_i8(a), to_i8, "{a} to 8 bits");
        }
        Ok(())
    }
}
