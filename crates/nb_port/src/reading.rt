// Reading bytes that are at hand, as a disk reads them.

ghost use Rattle.std.specs.Prelude.{Some, length};
ghost use Rattle.nb_port.specs.Disk.{ReadsContent};

// Copies the bytes of `content` from `place` on to the front of `buf`, and says how many.
pub(crate) fn copy_at(content: &[u8], place: u64, buf: &mut [u8]) -> usize
    ensures { ReadsContent (Some content.now) place (length buf.old) buf.new result }
{
    let at = (content.len() as u64).min(place) as usize;
    let (_, rest) = content.split_at(at);
    let n = rest.len().min(buf.len());
    let (front, _) = rest.split_at(n);
    buf[..n].copy_from_slice(front);
    n
}
