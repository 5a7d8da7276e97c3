// Which header this archive is of.
ghost use Rattle.std.specs.Prelude.{◌≡◌};
ghost use Rattle.boundary.specs.Version.{version};

// The header's NOOSELESS_VERSION.
#[unsafe(no_mangle)]
pub extern "C" fn nooseless_version() -> u32
    ensures { result ≡ version }
{
    boundary::version::nooseless_version()
}
