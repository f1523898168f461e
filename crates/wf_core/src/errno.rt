ghost use Rattle.std.specs.Prelude.{◌≡◌};
ghost use Rattle.wf_core.specs.Errors.{error_word};

/// The errors of file calls, after POSIX.1-2017, XBD `<errno.h>`.
#[derive(Clone, Copy, Debug, PartialEq, Eq)]
pub enum Errno {
    Enoent,
    Eexist,
    Enotdir,
    Eisdir,
    Enotempty,
    Einval,
    Eloop,
    Enametoolong,
    Ebadf,
    Emfile,
    Efbig,
    Enospc,
    Ebusy,
    Exdev,
    Eoverflow,
    Ecanceled,
    Enxio,
    Enotsup,
    Eagain,
}

impl Errno {
    /// The error's word in capital letters, as `ENOENT`.
    pub fn word(self) -> &'static str
        ensures { result.now ≡ error_word self }
    {
        match self {
            Errno::Enoent => "ENOENT",
            Errno::Eexist => "EEXIST",
            Errno::Enotdir => "ENOTDIR",
            Errno::Eisdir => "EISDIR",
            Errno::Enotempty => "ENOTEMPTY",
            Errno::Einval => "EINVAL",
            Errno::Eloop => "ELOOP",
            Errno::Enametoolong => "ENAMETOOLONG",
            Errno::Ebadf => "EBADF",
            Errno::Emfile => "EMFILE",
            Errno::Efbig => "EFBIG",
            Errno::Enospc => "ENOSPC",
            Errno::Ebusy => "EBUSY",
            Errno::Exdev => "EXDEV",
            Errno::Eoverflow => "EOVERFLOW",
            Errno::Ecanceled => "ECANCELED",
            Errno::Enxio => "ENXIO",
            Errno::Enotsup => "ENOTSUP",
            Errno::Eagain => "EAGAIN",
        }
    }
}
