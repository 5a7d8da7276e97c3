// Which header this archive is of.
ghost use Rattle.std.specs.Prelude.{◌≡◌};
ghost use Rattle.boundary.specs.Version.{version};

// The header's NOOSELESS_VERSION.
pub fn nooseless_version() -> u32
    ensures { result ≡ version }
{
    3
}
