//! Hexadecimal text: two digits a byte, the high half first.
#![tactic(auto)]

pub mod reading;
pub mod writing;

#[cfg(test)]
mod tests {
    use crate::reading::{DecodeError, decode};
    use crate::writing::Hex;
    use std::test::Fail;

    #[test]
    fn reads(rt: HostRuntime) -> Result<(), Fail> {
        let bytes = decode(rt.alloc(), "00fF7a9C")?;
        assert_eq!(rt; bytes.as_slice(), [0, 255, 122, 156].as_slice());
        assert!(rt; decode(rt.alloc(), "")?.is_empty());
        Ok(())
    }

    #[test]
    fn refuses(rt: HostRuntime) {
        let place = Some(DecodeError::NotADigit { at: 3 });
        assert_eq!(rt; decode(rt.alloc(), "00fg").err(), place);
        assert_eq!(rt; decode(rt.alloc(), "00f/1").err(), place);
        assert_eq!(rt; decode(rt.alloc(), "00f:@`").err(), place);
        assert_eq!(rt;
            decode(rt.alloc(), "00f").err(),
            Some(DecodeError::OddLength)
        );
    }

    #[test]
    fn prints(rt: HostRuntime) -> Result<(), Fail> {
        let line = format!(in rt.alloc(); "key {}", Hex(&[0, 255, 122, 156]))?;
        assert_eq!(rt; line.as_str(), "key 00ff7a9c");
        let line = DecodeError::NotADigit { at: 3 }.to_string(rt.alloc())?;
        assert_eq!(rt; line.as_str(), "no digit at 3");
        Ok(())
    }
}
