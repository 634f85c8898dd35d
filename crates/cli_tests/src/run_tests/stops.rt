//! Arguments that are no command and scripts that have no reading, with what is said of them.

use super::table::Case;
use token_cli::Status;

pub static STOPS: [Case; 11] = [
    Case {
        words: "build",
        script: b"tokc-script 1\nput a.json 5\n{}\n",
        written: "",
        said: "tokc: bad script at byte 14\n",
        status: Status::BadScript,
    },
    Case {
        words: "replay",
        script: b"tokc-script 1\ncommit\nput a.json 02\n{}\n",
        written: "",
        said: "tokc: bad script at byte 21\n",
        status: Status::BadScript,
    },
    Case {
        words: "replay",
        script: b"tokc-script 1\ncommit\n\xff\n",
        written: "",
        said: "tokc: bad script at byte 21\n",
        status: Status::BadScript,
    },
    Case {
        words: "stats",
        script: b"tokc-script 1\ncommit\nput a.json 02\n{}\n",
        written: "",
        said: "tokc: bad script at byte 21\n",
        status: Status::BadScript,
    },
    Case {
        words: "build x",
        script: b"tokc-script 1\n",
        written: "",
        said: "usage: tokc build | replay | stats | gen SEED SIZE\n",
        status: Status::Usage,
    },
    Case {
        words: "",
        script: b"tokc-script 1\n",
        written: "",
        said: "usage: tokc build | replay | stats | gen SEED SIZE\n",
        status: Status::Usage,
    },
    Case {
        words: "gen 7",
        script: b"tokc-script 1\n",
        written: "",
        said: "usage: tokc build | replay | stats | gen SEED SIZE\n",
        status: Status::Usage,
    },
    Case {
        words: "gen 07 1",
        script: b"tokc-script 1\n",
        written: "",
        said: "usage: tokc build | replay | stats | gen SEED SIZE\n",
        status: Status::Usage,
    },
    Case {
        words: "gen 7 0",
        script: b"tokc-script 1\n",
        written: "",
        said: "usage: tokc build | replay | stats | gen SEED SIZE\n",
        status: Status::Usage,
    },
    Case {
        words: "gen 7 4001",
        script: b"tokc-script 1\n",
        written: "",
        said: "usage: tokc build | replay | stats | gen SEED SIZE\n",
        status: Status::Usage,
    },
    Case {
        words: "--help",
        script: b"tokc-script 1\n",
        written: "",
        said: "usage: tokc build | replay | stats | gen SEED SIZE\n",
        status: Status::Usage,
    },
];
