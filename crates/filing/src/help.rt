// What --help and -h print, behind the line of usage.
pub const ARCHIVE_USAGE: &str = "usage: archive FILE [-o OUT]\n";

pub const ARCHIVE: &str = "
Writes the form in which the archive files an image: a data size, procedures and a
name stand in it only where they are not 0, the single default procedure and zeros.
It loads with the same modules, and images with equal modules have the same form.
FILE - is standard input; -h and --help print this text.

  -o OUT  the form goes to the file OUT, whole or not at all, and not to standard
          output

Of an image that load refuses nothing is written, and OUT stays as it was.
";

pub const SAME_USAGE: &str = "usage: same FILE FILE\n";

pub const SAME: &str = "
Tells whether two images have the same modules: data sizes, procedures, names and
code, in their order, however they are spelled. If not, it tells the first
difference, that of the first file before that of the second:

  different: module 1, data size: 5 and 6

Modules, procedures, bytes of a name and positions count from 0; bytes of a name and
of the code are in hex. FILE - is standard input; -h and --help print this text.
Exit status: 0 the same, 1 different, 2 a file that cannot be read or is refused.
";
