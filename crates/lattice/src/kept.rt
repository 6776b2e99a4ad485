//! The kept values in index order, which fill S and then E row by row.
ghost use Rattle.std.specs.Prelude.{◌≡◌, map, length};
ghost use Rattle.std.specs.List.{range_with_len};
ghost use Rattle.protocol.specs.Flags.{ones, kept_index};
ghost use Rattle.lattice.specs.Lines.{at};

/// The values whose flag is 1, one after the other.
pub fn gather_kept(values: &[u16], flags: &[u16], out: &mut [u16])
    requires flags { length flags.now ≡ length values.now }
    requires room { length out.old ≡ ones flags.now }
    ensures { out.new ≡ map (λ m. at values.now (kept_index flags.now m)) (range_with_len 0 (length out.old)) }
{
    for (m, (value, _)) in values
        .iter()
        .zip(flags)
        .filter(|(_, flag)| **flag == 1)
        .enumerate()
    {
        out[m] = *value;
    }
}
