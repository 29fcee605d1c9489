// Fields of a slice of bytes, low byte first, read and written.
// Each contract equates with a definition of specs/Fields.antt or specs/Put.antt.
ghost use Rattle.std.specs.Prelude.{◌≡◌, ◌+◌, ◌≤◌, ◌<◌, length};
ghost use Rattle.file_fields.specs.Fields;
ghost use Rattle.file_fields.specs.Put.{put};

pub fn le8(s: &[u8], o: usize) -> u16
    requires { o + 1 ≤ length s.now }
    ensures { result ≡ Fields.le8 s.now o }
{
    u16::from(s[o])
}

pub fn le16(s: &[u8], o: usize) -> u16
    requires { o + 2 ≤ length s.now }
    ensures { result ≡ Fields.le16 s.now o }
{
    u16::from_le_bytes([s[o], s[o + 1]])
}

pub fn le32(s: &[u8], o: usize) -> u32
    requires { o + 4 ≤ length s.now }
    ensures { result ≡ Fields.le32 s.now o }
{
    u32::from_le_bytes([s[o], s[o + 1], s[o + 2], s[o + 3]])
}

pub fn le64(s: &[u8], o: usize) -> u64
    requires { o + 8 ≤ length s.now }
    ensures { result ≡ Fields.le64 s.now o }
{
    u64::from_le_bytes([
        s[o],
        s[o + 1],
        s[o + 2],
        s[o + 3],
        s[o + 4],
        s[o + 5],
        s[o + 6],
        s[o + 7],
    ])
}

pub fn put8(out: &mut [u8], o: usize, v: u8)
    requires { o + 1 ≤ length out.old }
    ensures { out.new ≡ put 1 out.old o v }
{
    out[o] = v;
}

pub fn put16(out: &mut [u8], o: usize, v: u16)
    requires { o + 2 ≤ length out.old }
    ensures { out.new ≡ put 2 out.old o v }
{
    out[o..o + 2].copy_from_slice(&v.to_le_bytes());
}

pub fn put32(out: &mut [u8], o: usize, v: u32)
    requires { o + 4 ≤ length out.old }
    ensures { out.new ≡ put 4 out.old o v }
{
    out[o..o + 4].copy_from_slice(&v.to_le_bytes());
}

pub fn put64(out: &mut [u8], o: usize, v: u64)
    requires { o + 8 ≤ length out.old }
    ensures { out.new ≡ put 8 out.old o v }
{
    out[o..o + 8].copy_from_slice(&v.to_le_bytes());
}
