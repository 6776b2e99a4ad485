//! Challengers and what they choose, on worked examples.
#![tactic(auto)]

pub mod script;
pub mod scripted;

#[cfg(test)]
mod tests {
    use crate::script::Scripted;
    use challenge::by_maker::Derived;
    use challenge::challenger::Challenger;
    use challenge::selection::{choose_hidden, select_kept};
    use digest::maker::DigestMaker;
    use digest::short::ShortBytes;
    use keccak::shake256::Shake256;
    use protocol::fault::Fault;
    use record::header::check_header;
    use std::process::Abort;
    use std::test::Fail;

    // set 1, n = c = tau = 1, h = 2, M = 4, a = 0: two of four values are kept, and there are four parties
    const HEADER: [u8; 15] = [75, 80, 80, 1, 0, 1, 1, 0, 1, 4, 0, 2, 1, 0, 0];

    fn selects(rt: &impl Abort, one: u8, two: u8, due: [u16; 4]) -> Result<(), Fail> {
        let header = check_header(&HEADER).map_err(|_| Fail::new("refused"))?;
        let salt = ShortBytes::new(&[1; 32]).ok_or_else(|| Fail::new("too long"))?;
        let mut challenger = Scripted::new(one, two);
        let mut flags = [9; 4];
        assert!(rt; select_kept(&mut challenger, &salt, &salt, header, &mut flags).is_ok());
        assert!(rt; flags == due);
        Ok(())
    }

    #[test]
    fn draws(rt: HostRuntime) -> Result<(), Fail> {
        selects(&rt, 7, 5, [0, 1, 0, 1])?;
        selects(&rt, 0, 0, [1, 0, 0, 1])
    }

    #[test]
    fn hidden_party(rt: HostRuntime) -> Result<(), Fail> {
        let header = check_header(&HEADER).map_err(|_| Fail::new("refused"))?;
        let salt = ShortBytes::new(&[1; 32]).ok_or_else(|| Fail::new("too long"))?;
        let mut challenger = Scripted::new(254, 0);
        let mut hidden = [9; 1];
        assert!(rt;
            choose_hidden(&mut challenger, &salt, &salt, &salt, header, &mut hidden).is_ok()
        );
        assert!(rt; hidden == [2]);
        Ok(())
    }

    #[test]
    fn before_any_question(rt: HostRuntime) {
        let mut challenger: Derived<Shake256> = Derived::new();
        let mut out = [9; 3];
        // by its number, as the table of refusals has it
        let refusal = challenger.next(&mut out).err();
        assert_eq!(rt; refusal.map(|fault| fault.number()), Some(15));
        assert!(rt; out == [9; 3]);
    }
}
