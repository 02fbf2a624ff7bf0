// What the program says of itself.
ghost use Rattle.std.specs.Prelude.{◌≡◌, map};
ghost use Rattle.std.specs.String.{string_bytes};
ghost use Rattle.command_line.specs.Notices.{notice_of, notice_for};

/// What `--help` and `--version` ask for.
#[derive(Clone, Copy, Debug, PartialEq, Eq)]
pub enum Notice {
    Help,
    Version,
}

const HELP: &str = "\
asm keeps disk groups in images of disks, as the disk group layer of Oracle ASM
does.

usage: asm [--generate N] IMAGE...
       asm --help | -h
       asm --version | -V

  IMAGE...       the images of disks, each a file or a device that is named
                 once, at most 512, with no control character in its path.
                 Statements name it by this path. It is made beforehand, or by
                 CREATE DISK.
  --generate N   reads no script and runs one made from the number N, below
                 2^64, over four images, whose paths have no single quote. Each
                 reply is a . for ok or a ! for an error, the last in full.
  --             what follows is an image, also where it begins with a hyphen.

The script is read on standard input. A statement ends with ; and any other
command with its line. A line that begins with -- is skipped. Each command is
answered by ok or by an error line on standard output.

Below [x] may be absent, {x | y} is a choice, and a part before , .. may stand
again behind a comma. A size is a number of bytes, or of K, M, G or T, which are
powers of 1024. A name has at most 30 bytes. Keywords are in either case.
Statements:

  CREATE DISK 'image' SIZE size;
  CREATE DISKGROUP name [{EXTERNAL | NORMAL | HIGH} REDUNDANCY] groups
      [ATTRIBUTE 'attribute' = 'value', ..];
  DROP DISKGROUP name [{INCLUDING | EXCLUDING} CONTENTS];
  ALTER DISKGROUP name clause;

groups, one or more of:

  [QUORUM | REGULAR] [FAILGROUP name]
      DISK 'image' [NAME name] [SIZE size] [FORCE | NOFORCE], ..

clause, one of:

  MOUNT [FORCE | NOFORCE]
  DISMOUNT [FORCE | NOFORCE]
  CHECK [REPAIR | NOREPAIR]
  ADD groups [rebalance]
  DROP DISK name [FORCE | NOFORCE], .. [rebalance]
  DROP DISKS IN failgroup [FORCE | NOFORCE] [rebalance]
  UNDROP DISKS
  RESIZE {ALL | DISK name} [SIZE size] [rebalance]
  ONLINE {DISK name, .. | DISKS IN failgroup | ALL} [WAIT | NOWAIT]
  OFFLINE {DISK name, .. | DISKS IN failgroup} [DROP AFTER number{M | H}]
  rebalance
  ADD DIRECTORY 'path'
  RENAME DIRECTORY 'path' TO 'path'
  DROP DIRECTORY 'path'
  ADD ALIAS 'path' FOR 'path'
  RENAME ALIAS 'path' TO 'path'
  DROP ALIAS 'path'
  DROP FILE 'path'
  {ADD | MODIFY | ALTER} TEMPLATE name ATTRIBUTES (word [word])
  DROP TEMPLATE name
  SET ATTRIBUTE 'attribute' = 'value'

  failgroup   [QUORUM | REGULAR] FAILGROUP name
  rebalance   REBALANCE [POWER number] [WAIT | NOWAIT]
  path        +group/part/.., as +data/orcl/DATAFILE/users
  word        UNPROTECTED, MIRROR or HIGH; COARSE or FINE
  attribute   at creation: au_size, sector_size, extent_step, dir_blocks;
              at any time: disk_repair_time, compatible.asm, compatible.rdbms,
              compatible.advm

Verbs, each on a line of its own, in lower case and with no quotes. A path that
doesn't begin with + begins at the place where cd went:

  dbcreate path size [template]   makes a file +group/db/type/tag
  dbwrite path at hex             writes bytes, two hexadecimal digits each
  dbfill path at size hh          writes so many bytes hh
  dbread path at size             prints runs of equal bytes
  dbresize path size              changes the size
  cp path path                    copies; /file or ./file is one outside
  rm path                         removes a file or an empty directory
  ls [-l] [path]                  lists a directory, or names that match a *
  find path pattern               finds names that match a *, also below
  du [path]                       sums up sizes
  cd path                         goes to a directory
  pwd                             prints where
  mkdir path                      makes a directory
  mkalias path alias              gives a file an alias
  rmalias alias                   takes it away
  lsdg [group]                    lists groups
  lsdsk group                     lists disks
  lstmpl group                    lists templates
  lsattr group                    lists attributes
  offline group disk              as OFFLINE DISK
  online group disk               as ONLINE DISK
  rebal group power               as REBALANCE POWER

A text that is no command is answered error 1 Syntax and the place where it
parts from all commands. For example

  truncate -s 64M disk0
  asm disk0 <<'END'
  CREATE DISKGROUP data EXTERNAL REDUNDANCY DISK 'disk0';
  END

is answered ok with status 0. The same call again is answered error 6 DiskTaken
disk0 with status 1.

status: 0 every command was answered ok
        1 some command was refused
        2 the words are not of the form above; standard error says why
        3 the script could not be read
        4 a reply could not be written
        5 there was no memory
        6 the script is longer than 67108864 bytes
";

const VERSION: &str = "asm 1.0\n";

impl Notice {
    /// The notice that the words ask for: each comes as the only word.
    pub fn asked(words: &[String]) -> Option<Notice>
        ensures { result ≡ notice_for (map string_bytes words.now) }
    {
        match words {
            [word] => Notice::asked_by(word.as_str()),
            _ => None,
        }
    }

    fn asked_by(word: &str) -> Option<Notice>
        ensures { result ≡ notice_of word.now }
    {
        match word {
            "--help" | "-h" => Some(Notice::Help),
            "--version" | "-V" => Some(Notice::Version),
            _ => None,
        }
    }

    /// Its text, for standard output.
    pub fn text(self) -> &'static str {
        match self {
            Notice::Help => HELP,
            Notice::Version => VERSION,
        }
    }
}
