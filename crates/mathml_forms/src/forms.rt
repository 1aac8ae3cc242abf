// The display forms by their spellings, each as one number: a form's bytes behind a 1, so that the empty form is 1; 0 is no form. The rows
// are written by tools/make_mathml_forms.py.
ghost use Rattle.std.specs.Prelude.{◌≡◌};
ghost use Rattle.mathml_forms.specs.Words.{form_word, key_word};

use crate::equal::same_bytes;
use crate::key::key_of;

const MOST_WITH_KEY: usize = 9;

fn short_word(key: u64) -> u64
    ensures { result ≡ key_word key }
{
    match key {
        3102369 => 0x1e289a2, // !-= as ≢
        24225 => 0x1e289a0, // != as ≠
        3236513 => 0x1e28884, // !EE as ∄
        3912865 => 0x1e28889, // !in as ∉
        475888033 => 0x1e28a84, // !sub as ⊄
        61679172001 => 0x1e28a88, // !sube as ⊈
        505248161 => 0x1e28a85, // !sup as ⊅
        61708532129 => 0x1e28a89, // !supe as ⊉
        167 => 0x1e280b2, // ' as ′
        23848 => 0x1e29fa8, // (: as ⟨
        170 => 0x1e28b85, // * as ⋅
        21802 => 0x1e28897, // ** as ∗
        2790698 => 0x1e28b86, // *** as ⋆
        22187 => 0x1c2b1, // +- as ±
        21933 => 0x1e28893, // -+ as ∓
        23853 => 0x1c3b7, // -: as ÷
        24109 => 0x1e289ba, // -< as ≺
        3104301 => 0x1e2aaaf, // -<= as ⪯
        24237 => 0x1e289a1, // -= as ≡
        24365 => 0x1e28692, // -> as →
        3120941 => 0x1e286a0, // ->> as ↠
        4011565 => 0x1e289ba, // -lt as ≺
        2856750 => 0x1e280a6, // ... as …
        22447 => 0x12f, // // as /
        28591 => 0x1e288a0, // /_ as ∠
        3616687 => 0x1e296b3, // /_\ as △
        21434 => 0x1e288b5, // :' as ∵
        21690 => 0x1e29fa9, // :) as ⟩
        22330 => 0x1e288b4, // :. as ∴
        32314 => 0x17c, // :| as |
        3063354 => 0x17c, // :|: as |
        32442 => 0x1, // :} as nothing
        22204 => 0x1e28690, // <- as ←
        3118780 => 0x1e28694, // <-> as ↔
        24124 => 0x1e29fa8, // << as ⟨
        24252 => 0x1e289a4, // <= as ≤
        3104444 => 0x1e28790, // <== as ⇐
        399466172 => 0x1e28794, // <==> as ⇔
        3120828 => 0x1e28794, // <=> as ⇔
        3120829 => 0x1e28792, // ==> as ⇒
        24381 => 0x1e28792, // => as ⇒
        22206 => 0x1e289bb, // >- as ≻
        3102398 => 0x1e2aab0, // >-= as ⪰
        3118782 => 0x1e286a3, // >-> as ↣
        399480510 => 0x1e2a496, // >->> as ⤖
        4136510 => 0x1e28b8a, // ><| as ⋊
        24254 => 0x1e289a5, // >= as ≥
        24382 => 0x1e29fa9, // >> as ⟩
        192 => 0x1e28898, // @ as ∘
        24769 => 0x1e28880, // AA as ∀
        60617930305 => 0x1ce91, // Alpha as Α
        473772738 => 0x1ce92, // Beta as Β
        25027 => 0x1e28482, // CC as ℂ
        3830851 => 0x1cea7, // Chi as Χ
        60643029700 => 0x1ce94, // Delta as Δ
        17861218492781295556 => 0x1e28793, // Downarrow as ⇓
        25285 => 0x1e28883, // EE as ∃
        490534981 => 0x1ce95, // Epsi as Ε
        1050578213730373 => 0x1ce95, // Epsilon as Ε
        3701317 => 0x1ce97, // Eta as Η
        60628365511 => 0x1ce93, // Gamma as Γ
        473774025 => 0x1ce99, // Iota as Ι
        60634706123 => 0x1ce9a, // Kappa as Κ
        7757991997644 => 0x1ce9b, // Lambda as Λ
        60609491148 => 0x1ce9b, // Lamda as Λ
        17861218492793598668 => 0x1e28790, // Leftarrow as ⇐
        31437 => 0x1ce9c, // Mu as Μ
        26446 => 0x1e28495, // NN as ℕ
        31438 => 0x1ce9d, // Nu as Ν
        22479 => 0x1e28885, // O/ as ∅
        60615653071 => 0x1cea9, // Omega as Ω
        3830864 => 0x1cea6, // Phi as Φ
        29904 => 0x1cea0, // Pi as Π
        3832272 => 0x1cea8, // Psi as Ψ
        26833 => 0x1e2849a, // QQ as ℚ
        26962 => 0x1e2849d, // RR as ℝ
        3929170 => 0x1cea1, // Rho as Ρ
        60628268243 => 0x1cea3, // Sigma as Σ
        27220 => 0x1e28aa4, // TT as ⊤
        4026580 => 0x1cea4, // Tau as Τ
        60642915412 => 0x1ce98, // Theta as Θ
        1090162261522517 => 0x1e28791, // Uparrow as ⇑
        1050578213730389 => 0x1cea5, // Upsilon as Υ
        127177411411095766 => 0x1cfb4, // Vartheta as ϴ
        29912 => 0x1ce9e, // Xi as Ξ
        27994 => 0x1e284a4, // ZZ as ℤ
        473772762 => 0x1ce96, // Zeta as Ζ
        20572 => 0x120, // \  as U+0020
        28252 => 0x15c, // \\ as \
        28510 => 0x1e288a7, // ^^ as ∧
        3649374 => 0x1e28b80, // ^^^ as ⋀
        4141023 => 0x1e28c8b, // __| as ⌋
        3669599 => 0x1e28aa5, // _|_ as ⊥
        62513575521 => 0x1e284b5, // aleph as ℵ
        60617930337 => 0x1ceb1, // alpha as α
        61699913569 => 0x1e288a0, // angle as ∠
        8551252375649 => 0x1e28988, // approx as ≈
        4012513 => 0x1e28897, // ast as ∗
        16782531413902160098 => 0x15c, // backslash as \
        1011135632962274 => 0x1e288b5, // because as ∵
        473772770 => 0x1ceb2, // beta as β
        8272584766690 => 0x1e28b82, // bigcap as ⋂
        8277953475810 => 0x1e28b83, // bigcup as ⋃
        7895741232354 => 0x1e28b81, // bigvee as ⋁
        129372001461204194 => 0x1e28b80, // bigwedge as ⋀
        4012002 => 0x1e28aa5, // bot as ⊥
        7896811042786 => 0x1e28b88, // bowtie as ⋈
        3944675 => 0x1e288a9, // cap as ∩
        513536611 => 0x1e28b85, // cdot as ⋅
        65474916963 => 0x1e28baf, // cdots as ⋯
        3830883 => 0x1cf87, // chi as χ
        477934819 => 0x1e28898, // circ as ∘
        486258659 => 0x1e28985, // cong as ≅
        3947235 => 0x1e288aa, // cup as ∪
        509386980 => 0x1e28793, // dArr as ⇓
        3797220 => 0x1e280a0, // dag as †
        8342386372836 => 0x1e280a0, // dagger as †
        509391076 => 0x1e28693, // darr as ↓
        486044260 => 0x1e280a1, // ddag as ‡
        1067825455723108 => 0x1e280a1, // ddagger as ‡
        65474916964 => 0x1e28bb1, // ddots as ⋱
        3879652 => 0x1e28882, // del as ∂
        60643029732 => 0x1ceb4, // delta as δ
        1006564202280164 => 0x1e28b84, // diamond as ⋄
        4044004 => 0x1c3b7, // div as ÷
        7895445779684 => 0x1c3b7, // divide as ÷
        17861218492781295588 => 0x1e28693, // downarrow as ↓
        3880549 => 0x1e28493, // ell as ℓ
        137807975428142821 => 0x1e28885, // emptyset as ∅
        1010580540159845 => 0x1e28082, // enspace as U+2002
        490535013 => 0x1ceb5, // epsi as ε
        1050578213730405 => 0x1ceb5, // epsilon as ε
        66257254629 => 0x1e289a1, // equiv as ≡
        3701349 => 0x1ceb7, // eta as η
        8380797844581 => 0x1e28883, // exists as ∃
        8138094589926 => 0x1e28880, // forall as ∀
        64139032934 => 0x1e28ca2, // frown as ⌢
        60628365543 => 0x1ceb3, // gamma as γ
        29415 => 0x1e289a5, // ge as ≥
        3961575 => 0x1e289a5, // geq as ≥
        29671 => 0x1e289ab, // gg as ≫
        479754599 => 0x1e28887, // grad as ∇
        31335 => 0x13e, // gt as >
        3111527 => 0x1e289a5, // gt= as ≥
        509386984 => 0x1e28794, // hArr as ⇔
        509391080 => 0x1e28694, // harr as ↔
        509112680 => 0x1e2848f, // hbar as ℏ
        3781481 => 0x1e28794, // iff as ⇔
        65730671849 => 0x1e288ad, // iiint as ∭
        513520873 => 0x1e288ac, // iint as ∬
        1072224049837801 => 0x1e28792, // implies as ⇒
        30569 => 0x1e28888, // in as ∈
        67085383529 => 0x1e2889e, // infty as ∞
        4011881 => 0x1e288ab, // int as ∫
        473774057 => 0x1ceb9, // iota as ι
        60634706155 => 0x1ceba, // kappa as κ
        509386988 => 0x1e28790, // lArr as ⇐
        7757991997676 => 0x1cebb, // lambda as λ
        60609491180 => 0x1cebb, // lamda as λ
        479965420 => 0x1e288a7, // land as ∧
        7897588936940 => 0x1e29fa8, // langle as ⟨
        509391084 => 0x1e28690, // larr as ←
        130528861341970924 => 0x1e28c88, // lceiling as ⌈
        65474916972 => 0x1e280a6, // ldots as …
        29420 => 0x1e289a4, // le as ≤
        45342110444 => 0x128, // left( as (
        59032318700 => 0x15b, // left[ as [
        17861218492793598700 => 0x1e28690, // leftarrow as ←
        3961580 => 0x1e289a4, // leq as ≤
        8345087587180 => 0x1e28c8a, // lfloor as ⌊
        30316 => 0x1e289aa, // ll as ≪
        3979244 => 0x1e288a8, // lor as ∨
        31340 => 0x13c, // lt as <
        3111532 => 0x1e289a4, // lt= as ≤
        8376758729324 => 0x1e28b89, // ltimes as ⋉
        8243359002861 => 0x1e286a6, // mapsto as ↦
        4010989 => 0x1e289ab, // mgt as ≫
        4011629 => 0x1e289aa, // mlt as ≪
        8378620917741 => 0x1e28aa8, // models as ⊨
        30829 => 0x1e28893, // mp as ∓
        31469 => 0x1cebc, // mu as μ
        60626088174 => 0x1e28887, // nabla as ∇
        29422 => 0x1e289a0, // ne as ≠
        3797742 => 0x1c2ac, // neg as ¬
        30574 => 0x1e288a9, // nn as ∩
        3913582 => 0x1e28b82, // nnn as ⋂
        4012014 => 0x1c2ac, // not as ¬
        138951534061631470 => 0x1e289a2, // notequiv as ≢
        17575806961360648174 => 0x1e28884, // notexists as ∄
        64109754350 => 0x1e28889, // notin as ∉
        17639420064803141614 => 0x1e28a84, // notsubset as ⊄
        17639420545839478766 => 0x1e28a85, // notsupset as ⊅
        475888110 => 0x1e28a84, // nsub as ⊄
        17423251783242578414 => 0x1e28a88, // nsubseteq as ⊈
        505248238 => 0x1e28a85, // nsup as ⊅
        17423251783271938542 => 0x1e28a89, // nsupseteq as ⊉
        31470 => 0x1cebd, // nu as ν
        21999 => 0x1e28a95, // o+ as ⊕
        22255 => 0x1e28a96, // o- as ⊖
        22383 => 0x1e28a99, // o. as ⊙
        513536623 => 0x1e28a99, // odot as ⊙
        8413525996783 => 0x1e288b0, // oiiint as ∰
        65730671855 => 0x1e288af, // oiint as ∯
        513520879 => 0x1e288ae, // oint as ∮
        60615653103 => 0x1cf89, // omega as ω
        8381055792879 => 0x1e28a96, // ominus as ⊖
        30703 => 0x1e2889e, // oo as ∞
        65476966511 => 0x1e28a95, // oplus as ⊕
        8002534586863 => 0x1e28a98, // oslash as ⊘
        8376758729327 => 0x1e28a97, // otimes as ⊗
        31855 => 0x1e28a97, // ox as ⊗
        1041300302115056 => 0x1e28882, // partial as ∂
        3830896 => 0x1cf86, // phi as φ
        29936 => 0x1cf80, // pi as π
        30448 => 0x1c2b1, // pm as ±
        477722992 => 0x1e289ba, // prec as ≺
        8308018215280 => 0x1e2aaaf, // preceq as ⪯
        61702044016 => 0x1e280b2, // prime as ′
        479983984 => 0x1e2888f, // prod as ∏
        505149808 => 0x1e2889d, // prop as ∝
        8243352697200 => 0x1e2889d, // propto as ∝
        3832304 => 0x1cf88, // psi as ψ
        61408639217 => 0x1e28083e28083, // qquad as U+2003, U+2003
        479754993 => 0x1e28083, // quad as U+2003
        509386994 => 0x1e28792, // rArr as ⇒
        7897588936946 => 0x1e29fa9, // rangle as ⟩
        509391090 => 0x1e28692, // rarr as →
        130528861341970930 => 0x1e28c89, // rceiling as ⌉
        8345087587186 => 0x1e28c8b, // rfloor as ⌋
        3929202 => 0x1cf81, // rho as ρ
        5838154102002 => 0x129, // right) as )
        7624860497138 => 0x15d, // right] as ]
        8376758729330 => 0x1e28b8a, // rtimes as ⋊
        137315218110624499 => 0x15c, // setminus as \
        60628268275 => 0x1cf83, // sigma as σ
        3896563 => 0x1e288bc, // sim as ∼
        7899187083507 => 0x1e296a1, // square as □
        509114995 => 0x1e28b86, // star as ⋆
        3717875 => 0x1e28a82, // sub as ⊂
        481868531 => 0x1e28a86, // sube as ⊆
        8411130936051 => 0x1e28a82, // subset as ⊂
        136119154556582643 => 0x1e28a86, // subseteq as ⊆
        477690611 => 0x1e289bb, // succ as ≻
        8308018182899 => 0x1e2aab0, // succeq as ⪰
        3898099 => 0x1e28891, // sum as ∑
        3947251 => 0x1e28a83, // sup as ⊃
        482097907 => 0x1e28a87, // supe as ⊇
        8411131165427 => 0x1e28a83, // supset as ⊃
        136119154556812019 => 0x1e28a87, // supseteq as ⊇
        4026612 => 0x1cf84, // tau as τ
        16565857044584297588 => 0x1e288b4, // therefore as ∴
        60642915444 => 0x1ceb8, // theta as θ
        16557351569978979444 => 0x1e28089, // thinspace as U+2009
        65443427572 => 0x1c397, // times as ×
        30708 => 0x1e28692, // to as →
        3946484 => 0x1e28aa4, // top as ⊤
        129394097142790516 => 0x1e296b3, // triangle as △
        509386997 => 0x1e28791, // uArr as ⇑
        509391093 => 0x1e28691, // uarr as ↑
        1090162261522549 => 0x1e28691, // uparrow as ↑
        1050578213730421 => 0x1cf85, // upsilon as υ
        31477 => 0x1e288aa, // uu as ∪
        4029173 => 0x1e28b83, // uuu as ⋃
        127160195284250870 => 0x1cfb0, // varkappa as ϰ
        8033973088502 => 0x1cf95, // varphi as ϕ
        62782222582 => 0x1cf96, // varpi as ϖ
        8240135713014 => 0x1cfb1, // varrho as ϱ
        127177411411095798 => 0x1cf91, // vartheta as ϑ
        62519800438 => 0x1e28aa2, // vdash as ⊢
        65474916982 => 0x1e28bae, // vdots as ⋮
        3764982 => 0x1e288a8, // vee as ∨
        31606 => 0x1e288a8, // vv as ∨
        4045686 => 0x1e28b81, // vvv as ⋁
        61689377527 => 0x1e288a7, // wedge as ∧
        29944 => 0x1cebe, // xi as ξ
        31864 => 0x1c397, // xx as ×
        473772794 => 0x1ceb6, // zeta as ζ
        23931 => 0x1, // {: as nothing
        2840316 => 0x1e28aa2, // |-- as ⊢
        3118844 => 0x1e286a6, // |-> as ↦
        23932 => 0x17c, // |: as |
        3104508 => 0x1e28aa8, // |== as ⊨
        3088252 => 0x1e28b89, // |>< as ⋉
        529473404 => 0x1e28b88, // |><| as ⋈
        3665916 => 0x1e28c8a, // |__ as ⌊
        32636 => 0x1e28c88, // |~ as ⌈
        254 => 0x1e288bc, // ~ as ∼
        24318 => 0x1e28985, // ~= as ≅
        32382 => 0x1e28c89, // ~| as ⌉
        32638 => 0x1e28988, // ~~ as ≈
        _ => 0,
    }
}

pub fn form_word(s: &[u8]) -> u64
    ensures { result ≡ form_word s.now }
{
    if s.len() <= MOST_WITH_KEY {
        return short_word(key_of(s));
    }
    if same_bytes(s, b"Leftrightarrow") {
        return 0x1e28794; // ⇔
    }
    if same_bytes(s, b"Rightarrow") {
        return 0x1e28792; // ⇒
    }
    if same_bytes(s, b"leftrightarrow") {
        return 0x1e28694; // ↔
    }
    if same_bytes(s, b"notsubseteq") {
        return 0x1e28a88; // ⊈
    }
    if same_bytes(s, b"notsupseteq") {
        return 0x1e28a89; // ⊉
    }
    if same_bytes(s, b"rightarrow") {
        return 0x1e28692; // →
    }
    if same_bytes(s, b"rightarrowtail") {
        return 0x1e286a3; // ↣
    }
    if same_bytes(s, b"rightleftharpoons") {
        return 0x1e2878c; // ⇌
    }
    if same_bytes(s, b"twoheadrightarrow") {
        return 0x1e286a0; // ↠
    }
    if same_bytes(s, b"twoheadrightarrowtail") {
        return 0x1e2a496; // ⤖
    }
    if same_bytes(s, b"varepsilon") {
        return 0x1cfb5; // ϵ
    }
    0
}
