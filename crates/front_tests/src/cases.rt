// Inputs, each with what is told of it: the bounds and the number of steps, or the line that refuses it.
//
// In a table a case ends with a line `= ` and what is told. Its steps stand right before that, each behind `> `. Before these stands
// its program, in pieces that make one line; a case without one has that of the case before. A piece behind `*A..B ` stands once
// for each number from A to B, both of them too; in it `#` stands for the number, and `~` for the one before. A line that begins
// with `# ` is a remark.

/// What is accepted, and each refusal.
pub(crate) const REFUSALS: &str = r#"
# What is accepted: bounds, and how many steps there are.
function App() { return <>{for (i < 0, 64) <p>{for (j < 0, 61) j}</p>}{for (k < 0, 61) k}</>; }
= accepted nodes 4096 depth 5 steps 0
function Item({v}) { const [n, setN] = useState(v); return <i>{n}</i>; } function App() { const [a, setA] = useState(1); return <div>{for (i < 2, 2) i || a ? <Item key={5} v={10 + i}/> : null}</div>; }
> flush
> set sync App a 0
> flush
> state
= accepted nodes 9 depth 6 steps 4
# Each refusal, in order.
function App() { return <p>{1 & 2}</p>; }
= program refused 2 at 30
function App() { return <p>{1}</q>; }
= program refused 3 at 32
function App() { const a = 1; const a = 2; return null; }
= program refused 4 a
function App() { return <p>{x}</p>; }
= program refused 5 x
function f(a) { return a; } function App() { return <p>{f(1, 2)}</p>; }
= program refused 6 f
function f(a) { return f(a); } function App() { return null; }
= program refused 7 f
function A() { return <A/>; } function App() { return null; }
= program refused 8 A
function App() { const u = use("r"); return <p>{u}</p>; }
= program refused 9 App

= program refused 10
function App() { return <>{for (i < 0, 64) <p>{for (j < 0, 61) j}</p>}{for (k < 0, 65) k}</>; }
= program refused 11 list 65 64
function App() { return <>{for (i < 0, 64) <p>{for (j < 0, 61) j}</p>}{for (k < 0, 62) k}</>; }
= program refused 12 4097
# Lists in lists: 64 of 64 of 64 of 64 elements, and of one list more than the greatest figure.
function App() { return <b>
*1..4 {for (i# < 0, 64) <b>
*1..4 </b>}
</b>; }
= program refused 12 17309827
function App() { return <b>
*1..5 {for (i# < 0, 64) <b>
*1..5 </b>}
</b>; }
= program refused 12 1000000000
function g0(a) { return a; }
*1..18  function g#(a) { return g~(a) + g~(a); }
 function App() { return null; }
= program refused 13 1572859
function app(s, a) { return s * 10 + a; } function App() { const [s, setS] = useState(0); return <p>{s}</p>; }
> work 01
= script refused 14 line 1
> set sync App/Box s 1
= script refused 15 line 1
> work 1000001
= script refused 16 line 1
# The program is refused before the script, and of the script the first bad line.
function App() { return <p>{x}</p>; }
> jump
= program refused 5 x
function app(s, a) { return s * 10 + a; } function App() { const [s, setS] = useState(0); return <p>{s}</p>; }
> flush
> # none
> set sync Box s 1
> jump
= script refused 15 line 3
# How deep places nest.
function App() { return 
*1..64 (
1
*1..64 )
; }
= accepted nodes 2 depth 2 steps 0
function App() { return 
*1..65 (
1
*1..65 )
; }
= program refused 3 at 88
# The greatest number.
function App() { return <p>{2147483648}</p>; }
= accepted nodes 3 depth 3 steps 0
function App() { return <p>{2147483649}</p>; }
= program refused 2 at 28
# The cost of a declaration.
function g0(a) { return a; }
*1..17  function g#(a) { return g~(a) + g~(a); }
 function App() { return null; }
= accepted nodes 1 depth 1 steps 0
function g0(a) { return a; }
*1..17  function g#(a) { return g~(a) + g~(a); }
 function h(a) { return g17(a) + g15(a) + g11(a) + g9(a) + g8(a) + g3(a) + g2(a) + a + a + -a; } function App() { return null; }
= accepted nodes 1 depth 1 steps 0
function g0(a) { return a; }
*1..17  function g#(a) { return g~(a) + g~(a); }
 function h(a) { return g17(a) + g15(a) + g11(a) + g9(a) + g8(a) + g3(a) + g2(a) + a + a + - -a; } function App() { return null; }
= program refused 13 1000001
"#;

/// Counts at their limits and past them, and the numbers of a script.
pub(crate) const COUNTS: &str = r#"
# The counts, each at its limit and one past it.
function C0() { return <p/>; }
*1..253  function C#() { return <C~/>; }
 function App() { return <C253/>; }
= accepted nodes 256 depth 256 steps 0
function C0() { return <p/>; }
*1..254  function C#() { return <C~/>; }
 function App() { return <C254/>; }
= program refused 11 depth 257 256
function App() { const 
*1..64 n
 = 1; return null; }
= accepted nodes 1 depth 1 steps 0
function App() { const 
*1..65 n
 = 1; return null; }
= program refused 11 name 65 64
function App() { return "
*1..256 s
"; }
= accepted nodes 2 depth 2 steps 0
function App() { return "
*1..257 s
"; }
= program refused 11 string 257 256
*1..255 function f#() { return 0; } 
function App() { return null; }
= accepted nodes 1 depth 1 steps 0
*1..256 function f#() { return 0; } 
function App() { return null; }
= program refused 11 declarations 257 256
function f(a
*2..16 , a#
) { return 0; } function App() { return null; }
= accepted nodes 1 depth 1 steps 0
function f(a
*2..17 , a#
) { return 0; } function App() { return null; }
= program refused 11 parameters 17 16
function App() { 
*1..64 const v# = 0; 
return null; }
= accepted nodes 1 depth 1 steps 0
function App() { 
*1..65 const v# = 0; 
return null; }
= program refused 11 statements 65 64
function App() { return <p
*1..16  a#={1}
/>; }
= accepted nodes 2 depth 2 steps 0
function App() { return <p
*1..17  a#={1}
/>; }
= program refused 11 attributes 17 16
function App() { useEffect("e", [0
*2..16 , #
]); return null; }
= accepted nodes 1 depth 1 steps 0
function App() { useEffect("e", [0
*2..17 , #
]); return null; }
= program refused 11 dependencies 17 16
function App() { return for (i < 1, 64) null; }
= accepted nodes 2 depth 2 steps 0
function App() { return for (i < 1, 65) null; }
= program refused 11 list 65 64
function A() { 
*1..32 const u# = use("r#"); 
return null; } function B() { 
*33..64 const u# = use("r#"); 
return null; } function App() { return <Suspense fallback={null}><A/><B/></Suspense>; }
= accepted nodes 4 depth 3 steps 0
function A() { 
*1..32 const u# = use("r#"); 
return null; } function B() { 
*33..65 const u# = use("r#"); 
return null; } function App() { return <Suspense fallback={null}><A/><B/></Suspense>; }
= program refused 11 resources 65 64
# The numbers of a script.
function app(s, a) { return s * 10 + a; } function App() { const [s, setS] = useState(0); return <p>{s}</p>; }
> work 1000000
= accepted nodes 3 depth 3 steps 1
> set sync App s 2147483647
= accepted nodes 3 depth 3 steps 1
> set sync App/App@4095 s 1
= accepted nodes 3 depth 3 steps 1
> set sync App s 2147483648
= script refused 16 line 1
> set sync App/App@4096 s 1
= script refused 16 line 1
"#;

/// Which fault is told, and where it stands.
pub(crate) const PLACES: &str = r#"
# A name twice on an element, and a second key of a list: which stands first.
function Z({p, children}) { return <p><i key={1}/><b a={1} a={2} key={2}/></p>; } function App() { return null; }
= program refused 4 a
function Z({p, children}) { return <p><i key={1}/><b key={2} a={1} a={2}/></p>; } function App() { return null; }
= program refused 4 key
function Z({p, children}) { return <p><i key={1}/><Suspense fallback={<b a={1} a={2}/>} key={2}></Suspense></p>; } function App() { return null; }
= program refused 4 a
# A list has keys of its own, and a choice is one place with all its branches.
function Z({p, children}) { return <p><i key={1}/>{for (i < 2, 2) <b key={i}/>}</p>; } function App() { return null; }
= accepted nodes 1 depth 1 steps 0
function Z({p, children}) { return <p>{p ? <i key={1}/> : <b key={2}/>}<u/></p>; } function App() { return null; }
= accepted nodes 1 depth 1 steps 0
function Z({p, children}) { return <p><i key={1}/>{p ? null : p ? null : <b key={2}/>}</p>; } function App() { return null; }
= program refused 4 key
function Z({p, children}) { return <p>{p ? null : p ? null : <i key={1}/>}<b key={2}/></p>; } function App() { return null; }
= program refused 4 key
# What is unknown stands before what it is given.
function Z({a}) { return <p>{children}{b}</p>; } function App() { return null; }
= program refused 5 children
function Z() { const [s, t] = useReducer(ff, gg); return null; } function App() { return null; }
= program refused 5 ff
function Z({p, children}) { return <K.Provider value={q}></K.Provider>; } function App() { return null; }
= program refused 5 K
function Z({p, children}) { return <p>{for (i < 1, 2) 1}{i}</p>; } function App() { return null; }
= program refused 5 i
function Z({p, children}) { return ff(gg); } function App() { return null; }
= program refused 5 ff
function f(a) { return a; } function Y({q}) { return null; } function Z() { return <Y q={f(1, 2)} r={1}/>; } function App() { return null; }
= program refused 6 Y
# Children that a component drops wait nowhere; those that it shows beside a boundary do.
function W() { const u = use("r"); return null; } function H({children}) { return null; } function F({children}) { return <H>{children}</H>; } function App() { return <F><W/></F>; }
= accepted nodes 3 depth 5 steps 0
function W() { const u = use("r"); return null; } function F({children}) { return <Suspense fallback={children}><p/></Suspense>; } function App() { return <F><W/></F>; }
= program refused 9 W
# A text that ends too early is refused at its end, blanks and line ends too.
function App() { 
> jump
= program refused 3 at 18
"#;

/// Programs of version 2: their sizes, their numbers, and those of their scripts.
pub(crate) const SECOND: &str = r#"
"use 2"; function App() { return <>{for (i < 0, 1024) <p>{for (j < 0, 61) j}</p>}{for (k < 0, 1021) k}</>; }
= accepted nodes 65536 depth 5 steps 0
"use 2"; function App() { return <>{for (i < 0, 1024) <p>{for (j < 0, 61) j}</p>}{for (k < 0, 1022) k}</>; }
= program refused 12 65537
"use 2"; function App() { return <>{for (i < 0, 1024) <p>{for (j < 0, 61) j}</p>}{for (k < 0, 1025) k}</>; }
= program refused 11 list 1025 1024
"use 2"; function App() { return <p>{9223372036854775808}</p>; }
= accepted nodes 3 depth 3 steps 0
"use 2"; function App() { return <p>{9223372036854775809}</p>; }
= program refused 2 at 37
"use 2"; 
function app(s, a) { return s * 10 + a; } function App() { const [s, setS] = useState(0); return <p>{s}</p>; }
> set sync App s 9223372036854775807
> set sync App s -9223372036854775808
= accepted nodes 3 depth 3 steps 2
> set sync App s 9223372036854775808
= script refused 16 line 1
> set sync App s -9223372036854775809
= script refused 16 line 1
> set sync App s 18446744073709551616
= script refused 16 line 1
> set sync App/App@65535 s 1
= accepted nodes 3 depth 3 steps 1
> set sync App/App@65536 s 1
= script refused 16 line 1
# Another text at the front, and one without its `;`.
"use 3"; function App() { return null; }
= program refused 3 at 0
"use 2" function App() { return null; }
= program refused 3 at 8
"#;

/// Lines that ask for a resource anew: those that are steps, and why others are refused.
pub(crate) const REFRESHES: &str = r#"
# Another number of words.
function User() { const u = use("user"); return <b>{u}</b>; } function App() { return <Suspense fallback={<i/>}><User/></Suspense>; }
> refresh
= script refused 14 line 1
> refresh user
= script refused 14 line 1
> refresh sync user 1
= script refused 14 line 1
# A word that is no lane, and both words the wrong way round.
> refresh retry user
= script refused 14 line 1
> refresh user sync
= script refused 14 line 1
# A word that cannot name a resource.
> refresh sync App/User
= script refused 14 line 1
# Names that the program has not as a resource.
> refresh sync users
= script refused 15 line 1
> refresh sync User
= script refused 15 line 1
# The first bad line is told.
> flush
> refresh transition user
> refresh sync 9
> refresh user
= script refused 15 line 3
"#;

/// Lines that start a transition, and the statement of its flag: what is accepted, and why others are refused.
pub(crate) const STARTS: &str = r#"
# Another number of words.
function app(s, a) { return s * 10 + a; } function App() { const [w, go] = useTransition(); const [s, setS] = useState(0); return <p>{w}{s}</p>; }
> start sync App
= script refused 14 line 1
> start sync App w 1
= script refused 14 line 1
# A lane in which no start is.
> start default App w
= script refused 14 line 1
> start transition App w
= script refused 14 line 1
# A hook of another kind, the function in place of the flag, and a component that is not there.
> start sync App s
= script refused 15 line 1
> start sync App go
= script refused 15 line 1
> start sync App/Zed w
= script refused 15 line 1
# The flag takes no other dispatch.
> set sync App w 1
= script refused 15 line 1
> call sync App w app 1
= script refused 15 line 1
> send sync App w 1
= script refused 15 line 1
# A place in the path out of its bounds.
> start sync App/App@4096 w
= script refused 16 line 1
# The statement has no argument, and its names are bound once.
function App() { const [w, go] = useTransition(0); return null; }
= program refused 3 at 47
function App() { const [w, w] = useTransition(); return null; }
= program refused 4 w
"#;

/// Components that are declared by `memo`: what is accepted, and why others are refused.
pub(crate) const MEMOS: &str = r#"
# Two components, and steps that name a hook of one.
const Cell = memo(function Cell({v}) { return <i>{v}</i>; }); const App = memo(function App() { const [v, setV] = useState(0); const [w, setW] = useState(0); return <div>{w}{for (k < 20, 20) <Cell key={k} v={k < v}/>}</div>; });
> flush
> set sync App w 7
> flush
> set sync App/Cell v 1
= script refused 15 line 4
> flush
> set sync App w 7
> flush
= accepted nodes 64 depth 6 steps 3
# Another name of the function.
const A = memo(function B() { return null; }); function App() { return null; }
= program refused 3 at 24
const A = memo(function a() { return null; }); function App() { return null; }
= program refused 3 at 24
# A name that begins with no capital letter.
const a = memo(function a() { return null; });
= program refused 3 at 6
# The end is missing, in part and whole.
const A = memo(function A() { return null; };
= program refused 3 at 44
const A = memo(function A() { return null; }) function App() { return null; }
= program refused 3 at 46
# A component in place of its function, and the word elsewhere.
function A() { return null; } const App = memo(A);
= program refused 3 at 47
function App() { const memo = 1; return null; }
= program refused 3 at 23
# It is a component of that name, for each check.
const A = memo(function A() { return null; }); function A() { return null; }
= program refused 4 A
const A = memo(function A({x, x}) { return null; }); function App() { return null; }
= program refused 4 x
const A = memo(function A() { return <p>{x}</p>; }); function App() { return null; }
= program refused 5 x
const A = memo(function A({x}) { return null; }); function App() { return <A/>; }
= program refused 6 A
const A = memo(function A() { return <A/>; }); function App() { return null; }
= program refused 8 A
const App = memo(function App() { const u = use("r"); return <p>{u}</p>; });
= program refused 9 App
const App = memo(function App({x}) { return null; });
= program refused 10
"#;

/// Components that throw and error boundaries: what is accepted, and why others are refused.
pub(crate) const CATCHES: &str = r#"
# A component that throws, its boundary with a key, and steps.
function T({v}) { throwIf(v - 3 ? 0 : 7); const [n, setN] = useState(0); return <b>{v}</b>; } function App() { const [v, setV] = useState(1); const [k, setK] = useState(0); return <div><Catch key={k} fallback={<i/>}><T v={v}/></Catch>{v}</div>; }
> flush
> set sync App v 3
> set sync App/T n 1
= accepted nodes 8 depth 6 steps 3
# What throws outside of every error boundary: the root, and below one of Suspense.
function App() { throwIf(1); return null; }
= program refused 20 App
function T() { throwIf(1); return null; } function App() { return <Suspense fallback={null}><T/></Suspense>; }
= program refused 20 T
function T() { throwIf(1); return null; } function App() { return <Suspense fallback={<T/>}/>; }
= program refused 20 T
# A fallback that throws, outside of another error boundary and inside.
function T() { throwIf(1); return null; } function App() { return <Catch fallback={<T/>}><T/></Catch>; }
= program refused 20 T
function T() { throwIf(1); return null; } function App() { return <Catch fallback={null}><Catch fallback={<T/>}><T/></Catch></Catch>; }
= accepted nodes 5 depth 4 steps 0
# An error boundary does not wait in place of its children, or of its fallback.
function W() { const u = use("r"); return null; } function App() { return <Catch fallback={null}><W/></Catch>; }
= program refused 9 W
function W() { const u = use("r"); return null; } function App() { return <Catch fallback={<W/>}/>; }
= program refused 9 W
# Children that are given to a component throw where it places them.
function T() { throwIf(1); return null; } function C({children}) { return <p>{children}</p>; } function App() { return <C><T/></C>; }
= program refused 20 T
function T() { throwIf(1); return null; } function C({children}) { return <Catch fallback={null}>{children}</Catch>; } function App() { return <C><T/></C>; }
= accepted nodes 5 depth 5 steps 0
function T() { throwIf(1); return null; } function C({children}) { return null; } function App() { return <C><T/></C>; }
= accepted nodes 2 depth 3 steps 0
# The check stands behind that of resources, and before that of the root.
function App() { const u = use("r"); throwIf(u); return null; }
= program refused 9 App
function App({x}) { throwIf(x); return null; }
= program refused 20 App
function A() { throwIf(1); return null; }
= program refused 10
# What is thrown is an expression over the names before it.
function App() { throwIf(s); const s = 1; return null; }
= program refused 5 s
function App() { throwIf(f(1)); return null; }
= program refused 5 f
# A key of an error boundary is one of its place.
function App() { return <p><Catch key={1} fallback={null}/><Catch fallback={null} key={2}/></p>; }
= program refused 4 key
# What its tag lacks, or has too much.
function App() { return <Catch/>; }
= program refused 3 at 30
function App() { return <Catch key={1}/>; }
= program refused 3 at 38
function App() { return <Catch key={1} fallback={null} key={2}/>; }
= program refused 3 at 55
function App() { return <Catch fallback={null}></Suspense>; }
= program refused 3 at 49
function App() { return <Catch fallback={null}>; }
= program refused 3 at 47
# A throw without its parentheses, without its end, and its word elsewhere.
function App() { throwIf 1; return null; }
= program refused 3 at 25
function App() { throwIf(1) return null; }
= program refused 3 at 28
function App() { throwIf(); return null; }
= program refused 3 at 25
function App() { const throwIf = 1; return null; }
= program refused 3 at 23
function f() { throwIf(1); return 1; }
= program refused 3 at 15
"#;

const ONE_HOOK: &[u8] =
    b"function app(s, a) { return s * 10 + a; } function App() { const [s, setS] = useState(0); return <p>{s}</p>; }";

const ONE_RESOURCE: &[u8] =
    b"function User() { const u = use(\"user\"); return <b>{u}</b>; } function App() { return <Suspense fallback={<i/>}><User/></Suspense>; }";

const ONE_FLAG: &[u8] =
    b"function app(s, a) { return s * 10 + a; } function App() { const [w, go] = useTransition(); const [s, setS] = useState(0); return <p>{w}{s}</p>; }";

/// Inputs that no table can hold, each with what is told of it: a program, and a script.
pub(crate) const BYTES: [(&[u8], &[u8], &str); 8] = [
    // A byte of no character has a place: its own, or that of the first byte of a sequence that breaks off.
    (b"\xff", b"", "program refused 2 at 0"),
    (b"\x00", b"", "program refused 2 at 0"),
    (b"& // \xff", b"", "program refused 2 at 5"),
    (b"// \xe2\x82\xac \xe2\x82", b"", "program refused 2 at 7"),
    (ONE_HOOK, b"\xff", "script refused 14 line 1"),
    (ONE_HOOK, b"# \xff", "accepted nodes 3 depth 3 steps 0"),
    // A refresh in a lane of each kind, within an event too.
    (
        ONE_RESOURCE,
        b"refresh sync user\nrefresh input user\nrefresh default user\nrefresh\ttransition  user \nevent",
        "accepted nodes 6 depth 5 steps 5",
    ),
    // A start in both lanes, and dispatches of its event.
    (
        ONE_FLAG,
        b"start sync App w\nset transition App s 1\nstart\tinput  App w \nevent",
        "accepted nodes 4 depth 3 steps 4",
    ),
];
