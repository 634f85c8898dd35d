//! Runs without a failing call that write all, with what an independent compiler writes.

use token_cli::Status;

/// A run without a failing call: the arguments, the script, and what is written, what is said and how it ends.
pub struct Case {
    pub words: &'static str,
    pub script: &'static [u8],
    pub written: &'static str,
    pub said: &'static str,
    pub status: Status,
}

pub static CASES: [Case; 29] = [
    Case {
        words: "build",
        script: br#"tokc-script 1
put tokens.json 70
{"space":{"$type":"dimension","s":{"$value":{"value":4,"unit":"px"}}}}
"#,
        written: r#"tokc-stream 1
commit 1
file default/Tokens.swift 80
import UIKit

public enum Tokens {
  public static let space_s: CGFloat = 4.0
}

file default/tokens.css 28
:root {
  --space-s: 4px;
}

file default/tokens.json 78
{
  "space.s": {"$type": "dimension", "$value": {"value": 4, "unit": "px"}}
}

file default/tokens.xml 100
<?xml version="1.0" encoding="utf-8"?>
<resources>
  <dimen name="space_s">4dp</dimen>
</resources>

done 1
"#,
        said: "",
        status: Status::Done,
    },
    Case {
        words: "replay",
        script: b"tokc-script 1\n",
        written: "tokc-stream 1\ndone 0\n",
        said: "",
        status: Status::Done,
    },
    Case {
        words: "replay",
        script: b"tokc-script 1\ncommit\ncommit\n",
        written: "tokc-stream 1\ncommit 1\nfile default/REFUSED 61\nrule file-missing\nfile tokens.json\nline 1 column 1\nbytes 0 0\n\ncommit 2\ndone 2\n",
        said: "",
        status: Status::Refused,
    },
    Case {
        words: "build",
        script: b"tokc-script 1\nput tokens.json 0\n\n",
        written: "tokc-stream 1\ncommit 1\nfile default/REFUSED 60\nrule json-syntax\nfile tokens.json\nline 1 column 1\nbytes 0 0\n\ndone 1\n",
        said: "",
        status: Status::Refused,
    },
    Case {
        words: "build",
        script: b"tokc-script 1\nput tokens.json 2\n{}\n",
        written: r#"tokc-stream 1
commit 1
file default/Tokens.swift 37
import UIKit

public enum Tokens {
}

file default/tokens.css 10
:root {
}

file default/tokens.json 4
{
}

file default/tokens.xml 64
<?xml version="1.0" encoding="utf-8"?>
<resources>
</resources>

done 1
"#,
        said: "",
        status: Status::Done,
    },
    Case {
        words: "build",
        script: b"tokc-script 1\nput tokens.json 5\n\xef\xbb\xbf{}\n",
        written: "tokc-stream 1\ncommit 1\nfile default/REFUSED 60\nrule json-syntax\nfile tokens.json\nline 1 column 1\nbytes 0 0\n\ndone 1\n",
        said: "",
        status: Status::Refused,
    },
    Case {
        words: "build",
        script: br#"tokc-script 1
put tokens.json 15
{"a":"\ud800x"}
"#,
        written: "tokc-stream 1\ncommit 1\nfile default/REFUSED 63\nrule json-syntax\nfile tokens.json\nline 1 column 13\nbytes 12 12\n\ndone 1\n",
        said: "",
        status: Status::Refused,
    },
    Case {
        words: "build",
        script: br#"tokc-script 1
put tokens.json 13
{"a":1,"a":2}
"#,
        written: "tokc-stream 1\ncommit 1\nfile default/REFUSED 64\nrule json-duplicate\nfile tokens.json\nline 1 column 8\nbytes 7 10\n\ndone 1\n",
        said: "",
        status: Status::Refused,
    },
    Case {
        words: "build",
        script: b"tokc-script 1\nput tokens.json 1\n{\n",
        written: "tokc-stream 1\ncommit 1\nfile default/REFUSED 60\nrule json-syntax\nfile tokens.json\nline 1 column 2\nbytes 1 1\n\ndone 1\n",
        said: "",
        status: Status::Refused,
    },
    Case {
        words: "build",
        script: b"tokc-script 1\nput tokens.json 130\n[[[[[[[[[[[[[[[[[[[[[[[[[[[[[[[[[[[[[[[[[[[[[[[[[[[[[[[[[[[[[[[[[]]]]]]]]]]]]]]]]]]]]]]]]]]]]]]]]]]]]]]]]]]]]]]]]]]]]]]]]]]]]]]]]]\n",
        written: "tokc-stream 1\ncommit 1\nfile default/REFUSED 62\nrule json-depth\nfile tokens.json\nline 1 column 65\nbytes 64 65\n\ndone 1\n",
        said: "",
        status: Status::Refused,
    },
    Case {
        words: "build",
        script: b"tokc-script 1\nput tokens.json 4\n{} x\n",
        written: "tokc-stream 1\ncommit 1\nfile default/REFUSED 60\nrule json-syntax\nfile tokens.json\nline 1 column 4\nbytes 3 3\n\ndone 1\n",
        said: "",
        status: Status::Refused,
    },
    Case {
        words: "replay",
        script: br#"tokc-script 1
put tokens.json 70
{"space":{"$type":"dimension","s":{"$value":{"value":4,"unit":"px"}}}}
commit
put tokens.json 70
{"space":{"$type":"dimension","s":{"$value":{"value":4,"unit":"px"}}}}
put other.json 2
{}
commit
del tokens.json
del tokens.json
commit
put tokens.json 73
{"space":{"$type":"dimension","s":{"$value":{"value":1.50,"unit":"px"}}}}
commit
"#,
        written: r#"tokc-stream 1
commit 1
file default/Tokens.swift 80
import UIKit

public enum Tokens {
  public static let space_s: CGFloat = 4.0
}

file default/tokens.css 28
:root {
  --space-s: 4px;
}

file default/tokens.json 78
{
  "space.s": {"$type": "dimension", "$value": {"value": 4, "unit": "px"}}
}

file default/tokens.xml 100
<?xml version="1.0" encoding="utf-8"?>
<resources>
  <dimen name="space_s">4dp</dimen>
</resources>

commit 2
commit 3
file default/REFUSED 61
rule file-missing
file tokens.json
line 1 column 1
bytes 0 0

gone default/Tokens.swift
gone default/tokens.css
gone default/tokens.json
gone default/tokens.xml
commit 4
gone default/REFUSED
file default/Tokens.swift 80
import UIKit

public enum Tokens {
  public static let space_s: CGFloat = 1.5
}

file default/tokens.css 30
:root {
  --space-s: 1.5px;
}

file default/tokens.json 80
{
  "space.s": {"$type": "dimension", "$value": {"value": 1.5, "unit": "px"}}
}

file default/tokens.xml 102
<?xml version="1.0" encoding="utf-8"?>
<resources>
  <dimen name="space_s">1.5dp</dimen>
</resources>

done 4
"#,
        said: "",
        status: Status::Done,
    },
    Case {
        words: "build",
        script: br#"tokc-script 1
put tokens.json 2
{}
commit
del tokens.json
commit
put tokens.json 73
{"space":{"$type":"dimension","s":{"$value":{"value":1.50,"unit":"px"}}}}
"#,
        written: r#"tokc-stream 1
commit 1
file default/Tokens.swift 80
import UIKit

public enum Tokens {
  public static let space_s: CGFloat = 1.5
}

file default/tokens.css 30
:root {
  --space-s: 1.5px;
}

file default/tokens.json 80
{
  "space.s": {"$type": "dimension", "$value": {"value": 1.5, "unit": "px"}}
}

file default/tokens.xml 102
<?xml version="1.0" encoding="utf-8"?>
<resources>
  <dimen name="space_s">1.5dp</dimen>
</resources>

done 1
"#,
        said: "",
        status: Status::Done,
    },
    Case {
        words: "replay",
        script: br#"tokc-script 1
put tokens.json 81
{"a":{"$value":"{b}"},"b":{"$type":"dimension","$value":{"value":4,"unit":"px"}}}
commit
put tokens.json 81
{"a":{"$value":"{b}"},"b":{"$type":"dimension","$value":{"value":5,"unit":"px"}}}
commit
put tokc.toml 14
prefix = "ds"

commit
put tokc.toml 11
colour = 1

commit
"#,
        written: r#"tokc-stream 1
commit 1
file default/Tokens.swift 111
import UIKit

public enum Tokens {
  public static let a: CGFloat = 4.0
  public static let b: CGFloat = 4.0
}

file default/tokens.css 39
:root {
  --a: var(--b);
  --b: 4px;
}

file default/tokens.json 141
{
  "a": {"$type": "dimension", "$value": {"value": 4, "unit": "px"}},
  "b": {"$type": "dimension", "$value": {"value": 4, "unit": "px"}}
}

file default/tokens.xml 124
<?xml version="1.0" encoding="utf-8"?>
<resources>
  <dimen name="a">4dp</dimen>
  <dimen name="b">4dp</dimen>
</resources>

commit 2
file default/Tokens.swift 111
import UIKit

public enum Tokens {
  public static let a: CGFloat = 5.0
  public static let b: CGFloat = 5.0
}

file default/tokens.css 39
:root {
  --a: var(--b);
  --b: 5px;
}

file default/tokens.json 141
{
  "a": {"$type": "dimension", "$value": {"value": 5, "unit": "px"}},
  "b": {"$type": "dimension", "$value": {"value": 5, "unit": "px"}}
}

file default/tokens.xml 124
<?xml version="1.0" encoding="utf-8"?>
<resources>
  <dimen name="a">5dp</dimen>
  <dimen name="b">5dp</dimen>
</resources>

commit 3
file default/Tokens.swift 117
import UIKit

public enum Tokens {
  public static let ds_a: CGFloat = 5.0
  public static let ds_b: CGFloat = 5.0
}

file default/tokens.css 48
:root {
  --ds-a: var(--ds-b);
  --ds-b: 5px;
}

file default/tokens.xml 130
<?xml version="1.0" encoding="utf-8"?>
<resources>
  <dimen name="ds_a">5dp</dimen>
  <dimen name="ds_b">5dp</dimen>
</resources>

commit 4
file REFUSED 71
rule config-key
file tokc.toml
line 1 column 1
bytes 0 11
key "colour"

gone default/Tokens.swift
gone default/tokens.css
gone default/tokens.json
gone default/tokens.xml
done 4
"#,
        said: "",
        status: Status::Refused,
    },
    Case {
        words: "replay",
        script: br#"tokc-script 1
put tokens.json 60
{"a":{"$type":"dimension","$value":{"value":4,"unit":"em"}}}
commit
put tokens.json 61
 {"a":{"$type":"dimension","$value":{"value":4,"unit":"em"}}}
commit
"#,
        written: r##"tokc-stream 1
commit 1
file default/REFUSED 100
rule dimension-unit
file tokens.json
line 1 column 54
bytes 53 57
token "a"
place "#/a/$value/unit"

commit 2
file default/REFUSED 100
rule dimension-unit
file tokens.json
line 1 column 55
bytes 54 58
token "a"
place "#/a/$value/unit"

done 2
"##,
        said: "",
        status: Status::Refused,
    },
    Case {
        words: "replay",
        script: br#"tokc-script 1
put tokens.json 64
{"a":{"$value":"{b}"},"b":{"$value":"{c}"},"c":{"$value":"{a}"}}
commit
"#,
        written: r##"tokc-stream 1
commit 1
file default/REFUSED 146
rule alias-cycle
file tokens.json
line 1 column 16
bytes 15 20
token "a"
place "#/a/$value"
ring "#/a/$value"
ring "#/b/$value"
ring "#/c/$value"

done 1
"##,
        said: "",
        status: Status::Refused,
    },
    Case {
        words: "build",
        script: br#"tokc-script 1
put tokens.json 30
{"a":{"b":{"$extends":"{a}"}}}
"#,
        written: r##"tokc-stream 1
commit 1
file default/REFUSED 89
rule extends-cycle
file tokens.json
line 1 column 23
bytes 22 27
ring "#/a"
ring "#/a/b"

done 1
"##,
        said: "",
        status: Status::Refused,
    },
    Case {
        words: "build",
        script: br#"tokc-script 1
put tokens.json 668
{"a":{"t":{"$type":"number","$value":1}},"b":{"x":{"$extends":"{a}"},"y":{"$extends":"{a}"}},"c":{"x":{"$extends":"{b}"},"y":{"$extends":"{b}"}},"d":{"x":{"$extends":"{c}"},"y":{"$extends":"{c}"}},
"e":{"x":{"$extends":"{d}"},"y":{"$extends":"{d}"}},"f":{"x":{"$extends":"{e}"},"y":{"$extends":"{e}"}},"g":{"x":{"$extends":"{f}"},"y":{"$extends":"{f}"}},"h":{"x":{"$extends":"{g}"},"y":{"$extends":"{g}"}},
"i":{"x":{"$extends":"{h}"},"y":{"$extends":"{h}"}},"j":{"x":{"$extends":"{i}"},"y":{"$extends":"{i}"}},"k":{"x":{"$extends":"{j}"},"y":{"$extends":"{j}"}},"l":{"x":{"$extends":"{k}"},"y":{"$extends":"{k}"}},
"m":{"x":{"$extends":"{l}"},"y":{"$extends":"{l}"}}}
"#,
        written: "tokc-stream 1\ncommit 1\nfile default/REFUSED 74\nrule extends-count\nfile tokens.json\nline 1 column 1\nbytes 0 0\ncount 24560\n\ndone 1\n",
        said: "",
        status: Status::Refused,
    },
    Case {
        words: "build",
        script: br#"tokc-script 1
put tokens.json 440
{"a":{"x":{"x":{"x":{"x":{"x":{"x":{"x":{"x":{"x":{"x":{"x":{"x":{"x":{"x":{"x":{"x":{"x":{"x":{"x":{"x":{"x":{}}}}}}}}}}}}}}}}}}}}}},
"b":{"x":{"x":{"x":{"x":{"x":{"x":{"x":{"x":{"x":{"x":{"x":{"x":{"x":{"x":{"x":{"x":{"x":{"x":{"x":{"x":{"x":{"$extends":"{a}"}}}}}}}}}}}}}}}}}}}}}},
"c":{"x":{"x":{"x":{"x":{"x":{"x":{"x":{"x":{"x":{"x":{"x":{"x":{"x":{"x":{"x":{"x":{"x":{"x":{"x":{"x":{"x":{"x":{"$extends":"{b}"}}}}}}}}}}}}}}}}}}}}}}}}
"#,
        written: "tokc-stream 1\ncommit 1\nfile default/REFUSED 72\nrule extends-height\nfile tokens.json\nline 1 column 1\nbytes 0 0\ncount 65\n\ndone 1\n",
        said: "",
        status: Status::Refused,
    },
    Case {
        words: "replay",
        script: b"tokc-script 1\nput tokens.json 2\n{}\ncommit\nput resolver.json 2\n{}\ncommit\n",
        written: r#"tokc-stream 1
commit 1
file default/Tokens.swift 37
import UIKit

public enum Tokens {
}

file default/tokens.css 10
:root {
}

file default/tokens.json 4
{
}

file default/tokens.xml 64
<?xml version="1.0" encoding="utf-8"?>
<resources>
</resources>

commit 2
file REFUSED 63
rule plan-version
file resolver.json
line 1 column 1
bytes 0 2

gone default/Tokens.swift
gone default/tokens.css
gone default/tokens.json
gone default/tokens.xml
done 2
"#,
        said: "",
        status: Status::Refused,
    },
    Case {
        words: "replay",
        script: br#"tokc-script 1
put tokens.json 86
{"a":{"$type":"number","$value":1,"$description":"x","$extensions":{"k": 1},"$foo":2}}
commit
put tokens.json 86
{"a":{"$type":"number","$value":1,"$description":"x","$extensions":{"k": 1},"$foo":2}}
commit
"#,
        written: r#"tokc-stream 1
commit 1
file default/Tokens.swift 73
import UIKit

public enum Tokens {
  public static let a: Double = 1.0
}

file default/tokens.css 20
:root {
  --a: 1;
}

file default/tokens.json 90
{
  "a": {"$type": "number", "$value": 1, "$description": "x", "$extensions": {"k": 1}}
}

file default/tokens.xml 118
<?xml version="1.0" encoding="utf-8"?>
<resources>
  <item type="dimen" format="float" name="a">1</item>
</resources>

commit 2
done 2
"#,
        said: "",
        status: Status::Done,
    },
    Case {
        words: "stats",
        script: br#"tokc-script 1
put tokens.json 86
{"a":{"$type":"number","$value":1,"$description":"x","$extensions":{"k": 1},"$foo":2}}
commit
put tokens.json 86
{"a":{"$type":"number","$value":1,"$description":"x","$extensions":{"k": 1},"$foo":2}}
commit
"#,
        written: "tokc-stats 1\ncommit 1 parsed 1 merged 1 evaluated 1 written 4 gone 0\ncommit 2 parsed 0 merged 0 evaluated 0 written 0 gone 0\ndone 2\n",
        said: "",
        status: Status::Done,
    },
    Case {
        words: "replay",
        script: br##"tokc-script 1
put resolver.json 148
{"version":"2025.10","modifiers":{"theme":{"contexts":{"light":[],"dark":[{"$ref":"dark.json"}]}}},"resolutionOrder":[{"$ref":"#/modifiers/theme"}]}
put dark.json 2
{}
commit
put dark.json 7
{"a":1}
commit
"##,
        written: r#"tokc-stream 1
commit 1
file theme=dark/Tokens.swift 37
import UIKit

public enum Tokens {
}

file theme=dark/tokens.css 10
:root {
}

file theme=dark/tokens.json 4
{
}

file theme=dark/tokens.xml 64
<?xml version="1.0" encoding="utf-8"?>
<resources>
</resources>

file theme=light/Tokens.swift 37
import UIKit

public enum Tokens {
}

file theme=light/tokens.css 10
:root {
}

file theme=light/tokens.json 4
{
}

file theme=light/tokens.xml 64
<?xml version="1.0" encoding="utf-8"?>
<resources>
</resources>

commit 2
file theme=dark/REFUSED 59
rule shape-member
file dark.json
line 1 column 6
bytes 5 6

gone theme=dark/Tokens.swift
gone theme=dark/tokens.css
gone theme=dark/tokens.json
gone theme=dark/tokens.xml
done 2
"#,
        said: "",
        status: Status::Refused,
    },
    Case {
        words: "stats",
        script: br##"tokc-script 1
put resolver.json 148
{"version":"2025.10","modifiers":{"theme":{"contexts":{"light":[],"dark":[{"$ref":"dark.json"}]}}},"resolutionOrder":[{"$ref":"#/modifiers/theme"}]}
put dark.json 2
{}
commit
put dark.json 7
{"a":1}
commit
"##,
        written: "tokc-stats 1\ncommit 1 parsed 2 merged 2 evaluated 0 written 8 gone 0\ncommit 2 parsed 1 merged 0 evaluated 0 written 1 gone 4\ndone 2\n",
        said: "",
        status: Status::Refused,
    },
    Case {
        words: "stats",
        script: br##"tokc-script 1
put resolver.json 148
{"version":"2025.10","modifiers":{"theme":{"contexts":{"light":[],"dark":[{"$ref":"dark.json"}]}}},"resolutionOrder":[{"$ref":"#/modifiers/theme"}]}
put dark.json 2
{}
commit
put dark.json 7
{"a":1}
commit
put dark.json 2
{}
commit
"##,
        written: "tokc-stats 1\ncommit 1 parsed 2 merged 2 evaluated 0 written 8 gone 0\ncommit 2 parsed 1 merged 0 evaluated 0 written 1 gone 4\ncommit 3 parsed 1 merged 1 evaluated 0 written 4 gone 1\ndone 3\n",
        said: "",
        status: Status::Done,
    },
    Case {
        words: "stats",
        script: b"tokc-script 1\n",
        written: "tokc-stats 1\ndone 0\n",
        said: "",
        status: Status::Done,
    },
    Case {
        words: "stats",
        script: br#"tokc-script 1
put tokens.json 35
{"a":{"$type":"number","$value":1}}
commit
commit
commit
commit
commit
commit
commit
commit
commit
commit
commit
commit
"#,
        written: "tokc-stats 1\ncommit 1 parsed 1 merged 1 evaluated 1 written 4 gone 0\ncommit 2 parsed 0 merged 0 evaluated 0 written 0 gone 0\ncommit 3 parsed 0 merged 0 evaluated 0 written 0 gone 0\ncommit 4 parsed 0 merged 0 evaluated 0 written 0 gone 0\ncommit 5 parsed 0 merged 0 evaluated 0 written 0 gone 0\ncommit 6 parsed 0 merged 0 evaluated 0 written 0 gone 0\ncommit 7 parsed 0 merged 0 evaluated 0 written 0 gone 0\ncommit 8 parsed 0 merged 0 evaluated 0 written 0 gone 0\ncommit 9 parsed 0 merged 0 evaluated 0 written 0 gone 0\ncommit 10 parsed 0 merged 0 evaluated 0 written 0 gone 0\ncommit 11 parsed 0 merged 0 evaluated 0 written 0 gone 0\ncommit 12 parsed 0 merged 0 evaluated 0 written 0 gone 0\ndone 12\n",
        said: "",
        status: Status::Done,
    },
    Case {
        words: "gen 7 12",
        script: b"tokc-script 1\n",
        written: "tokc-stats 1\ncommit 1 parsed 6 merged 4 evaluated 56 written 16 gone 0\ncommit 2 parsed 1 merged 4 evaluated 40 written 16 gone 0\ncommit 3 parsed 1 merged 4 evaluated 8 written 16 gone 0\ncommit 4 parsed 1 merged 4 evaluated 40 written 16 gone 0\ncommit 5 parsed 1 merged 4 evaluated 8 written 16 gone 0\ncommit 6 parsed 1 merged 4 evaluated 40 written 16 gone 0\ncommit 7 parsed 1 merged 4 evaluated 8 written 16 gone 0\ncommit 8 parsed 1 merged 4 evaluated 40 written 16 gone 0\ncommit 9 parsed 1 merged 4 evaluated 8 written 16 gone 0\ncommit 10 parsed 1 merged 4 evaluated 40 written 16 gone 0\ncommit 11 parsed 1 merged 4 evaluated 8 written 16 gone 0\ncommit 12 parsed 1 merged 4 evaluated 40 written 16 gone 0\ncommit 13 parsed 1 merged 4 evaluated 8 written 16 gone 0\ncommit 14 parsed 1 merged 4 evaluated 40 written 16 gone 0\ncommit 15 parsed 1 merged 4 evaluated 8 written 16 gone 0\ncommit 16 parsed 1 merged 4 evaluated 40 written 16 gone 0\ncommit 17 parsed 1 merged 4 evaluated 8 written 16 gone 0\ncommit 18 parsed 1 merged 4 evaluated 40 written 16 gone 0\ncommit 19 parsed 1 merged 4 evaluated 8 written 16 gone 0\ncommit 20 parsed 1 merged 4 evaluated 40 written 16 gone 0\ncommit 21 parsed 1 merged 4 evaluated 8 written 16 gone 0\ndone 21\n",
        said: "",
        status: Status::Done,
    },
    Case {
        words: "build",
        script: br##"tokc-script 1
put tokens.json 298
{"base":{"$type":"dimension","$deprecated":true,"$root":{"$value":{"value":1,"unit":"px"}},"in":{"x":{"$value":{"value":2,"unit":"px"}},"y":{"$deprecated":false,"$value":{"value":3,"unit":"px"}}}},"mid":{"$extends":"{base}","in":{"x":{"$value":{"value":5,"unit":"px"}}}},"top":{"$extends":"#/mid"}}
"##,
        written: r#"tokc-stream 1
commit 1
file default/Tokens.swift 421
import UIKit

public enum Tokens {
  public static let base: CGFloat = 1.0
  public static let base_in_x: CGFloat = 2.0
  public static let base_in_y: CGFloat = 3.0
  public static let mid: CGFloat = 1.0
  public static let mid_in_x: CGFloat = 5.0
  public static let mid_in_y: CGFloat = 3.0
  public static let top: CGFloat = 1.0
  public static let top_in_x: CGFloat = 5.0
  public static let top_in_y: CGFloat = 3.0
}

file default/tokens.css 169
:root {
  --base: 1px;
  --base-in-x: 2px;
  --base-in-y: 3px;
  --mid: 1px;
  --mid-in-x: 5px;
  --mid-in-y: 3px;
  --top: 1px;
  --top-in-x: 5px;
  --top-in-y: 3px;
}

file default/tokens.json 819
{
  "base.$root": {"$type": "dimension", "$value": {"value": 1, "unit": "px"}, "$deprecated": true},
  "base.in.x": {"$type": "dimension", "$value": {"value": 2, "unit": "px"}, "$deprecated": true},
  "base.in.y": {"$type": "dimension", "$value": {"value": 3, "unit": "px"}},
  "mid.$root": {"$type": "dimension", "$value": {"value": 1, "unit": "px"}, "$deprecated": true},
  "mid.in.x": {"$type": "dimension", "$value": {"value": 5, "unit": "px"}, "$deprecated": true},
  "mid.in.y": {"$type": "dimension", "$value": {"value": 3, "unit": "px"}},
  "top.$root": {"$type": "dimension", "$value": {"value": 1, "unit": "px"}, "$deprecated": true},
  "top.in.x": {"$type": "dimension", "$value": {"value": 5, "unit": "px"}, "$deprecated": true},
  "top.in.y": {"$type": "dimension", "$value": {"value": 3, "unit": "px"}}
}

file default/tokens.xml 385
<?xml version="1.0" encoding="utf-8"?>
<resources>
  <dimen name="base">1dp</dimen>
  <dimen name="base_in_x">2dp</dimen>
  <dimen name="base_in_y">3dp</dimen>
  <dimen name="mid">1dp</dimen>
  <dimen name="mid_in_x">5dp</dimen>
  <dimen name="mid_in_y">3dp</dimen>
  <dimen name="top">1dp</dimen>
  <dimen name="top_in_x">5dp</dimen>
  <dimen name="top_in_y">3dp</dimen>
</resources>

done 1
"#,
        said: "",
        status: Status::Done,
    },
];
