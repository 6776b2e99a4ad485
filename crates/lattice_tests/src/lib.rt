//! Values, rows, products and sums on worked examples; the expected numbers were computed in Python.
#![tactic(auto)]

#[cfg(test)]
mod tests {
    use lattice::kept::gather_kept;
    use lattice::product::multiply_row;
    use lattice::rows::{matrix_row, multiply};
    use lattice::sums::Rows;
    use lattice::values::{sample, sample_all};
    use protocol::set::Set;

    const SEED: [u8; 16] = [0, 1, 2, 3, 4, 5, 6, 7, 8, 9, 10, 11, 12, 13, 14, 15];

    fn fold(numbers: &[u16]) -> u32 {
        numbers.iter().fold(0u32, |sum, x| sum.wrapping_mul(31).wrapping_add(*x as u32))
    }

    // first, first + step, first + 2·step, .. modulo 2^16
    fn fill(numbers: &mut [u16], first: u16, step: u16) {
        let mut next = first;
        for x in numbers.iter_mut() {
            *x = next;
            next = next.wrapping_add(step);
        }
    }

    // every word's value modulo q
    fn samples(set: Set) -> u32 {
        let mut words = [0; 65536];
        fill(&mut words, 0, 1);
        sample_all(set, &mut words);
        fold(&words)
    }

    #[test]
    fn sampled(rt: HostRuntime) {
        assert_eq!(rt; sample(Set::One, 9286), 0);
        assert_eq!(rt; sample(Set::One, 9288), 1);
        assert_eq!(rt; sample(Set::One, 9289), -1);
        assert_eq!(rt; sample(Set::One, 65534), 12);
        assert_eq!(rt; sample(Set::One, 65535), -12);
        assert_eq!(rt; sample(Set::Three, 65535), -6);
        assert_eq!(rt; samples(Set::One), 2885203940);
        assert_eq!(rt; samples(Set::Two), 3802666804);
        assert_eq!(rt; samples(Set::Three), 220160478);
    }

    fn row_85(set: Set) -> u32 {
        let mut row = [0; 85];
        matrix_row(set, 258, &SEED, &mut row);
        fold(&row)
    }

    #[test]
    fn rows(rt: HostRuntime) {
        assert_eq!(rt; row_85(Set::One), 2622853393);
        assert_eq!(rt; row_85(Set::Two), 3498414353);
        let mut row = [0; 1344];
        matrix_row(Set::Three, 1343, &SEED, &mut row);
        assert_eq!(rt; fold(&row), 388425515);
    }

    fn product_64(set: Set) -> u32 {
        let mut secrets = [0; 1024];
        fill(&mut secrets, 13, 7919);
        let mut columns = [0; 512];
        let mut row = [0; 64];
        let mut out = [0; 512];
        multiply(set, 8, &SEED, &secrets, &mut columns, &mut row, &mut out);
        fold(&out)
    }

    #[test]
    fn products(rt: HostRuntime) {
        let mut out = [0; 1];
        multiply_row(Set::One, 1, 0, &[32767], &[2], &[0], &mut out);
        assert_eq!(rt; out[0], 32766);
        assert_eq!(rt; product_64(Set::One), 2522920876);
        assert_eq!(rt; product_64(Set::Three), 3966547884);
    }

    #[test]
    fn sums(rt: HostRuntime) {
        let mut rows = [0; 35];
        fill(&mut rows, 9, 40503);
        let mut row = [9; 7];
        let in_one = Rows {
            set: Set::One,
            parties: 5,
            width: 7,
            rows: &rows,
        };
        let in_two = Rows {
            set: Set::Two,
            parties: 5,
            width: 7,
            rows: &rows,
        };
        in_one.sum_all(&mut row);
        assert!(rt; row == [17207, 23114, 29021, 2160, 8067, 13974, 19881]);
        in_two.sum_others(2, &mut row);
        assert!(rt; row == [39980, 5384, 36324, 1728, 32668, 63608, 29012]);
        let whole = [1000, 1001, 1002, 1003, 1004, 1005, 1006];
        in_one.complete(2, &whole, &mut row);
        assert!(rt; row == [26556, 28385, 30214, 32043, 1104, 2933, 4762]);
    }

    #[test]
    fn kept(rt: HostRuntime) {
        let mut out = [0; 2];
        gather_kept(&[11, 22, 33, 44], &[0, 1, 0, 1], &mut out);
        assert!(rt; out == [22, 44]);
    }
}
